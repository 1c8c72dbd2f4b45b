//! The history of a structure of each kind, judged by the engine for that kind.
ghost use Rattle.std.specs.Prelude.{◌≡◌, ◌<◌, IfOk, IsTrue, All, length};
ghost use Rattle.cf_types.specs.Forms.{IsForm, is_cache, is_list, is_lock};
ghost use Rattle.vector_waits.specs.Waits.{AreSettled};
ghost use Rattle.history_check.specs.Judging.{IsAskable, IsJudged};
ghost use Rattle.history_check.specs.Queues.{HasTestsOf, IsRising, Pairs};
ghost use Rattle.history_check.specs.declared.judged.Judged.TheVariants as judged;
ghost use Rattle.check_model.specs.RunShown.Meanings.{altered_caches};
ghost use Rattle.check_model.specs.RunShown.QueueModel.ListQueues.{queued_lists};
ghost use Rattle.check_model.specs.RunShown.LockModel.Meaning.{lock_meaning};

use cache_core::CacheEngine;
use cf_alter::Altered;
use cf_types::{
    AlterCmd, AlterReply, CacheCmd, CacheReply, LockCmd, LockReply, NoMemory, QueueCmd, QueueReply,
    StrForm,
};
use engine_api::Entry;
use history_check::{Judged, judge_history};
use list_queues::QueueEngine;
use lock_core::LockEngine;
use std::alloc::Global;
use vector_waits::Queue;

/// That of a cache structure, whose capacity may be altered.
pub(crate) fn judge_cache(
    alloc: Global,
    form: &StrForm,
    entries: &[Entry<AlterCmd<CacheCmd>, AlterReply<CacheReply>>],
    queues: &mut [Queue],
) -> Result<Judged, NoMemory>
    requires formed { IsForm form.now }
    requires kind { IsTrue (is_cache form.now.kind) }
    requires askable { All IsAskable entries.now }
    requires room { length entries.now < 18446744073709551613 }
    requires rising { All IsRising queues.old }
    ensures judged { IfOk result (IsJudged altered_caches form.now entries.now) }
    ensures told { IfOk result (λ found. found ≡ judged.Legal
        → All (AreSettled altered_caches form.now entries.now) queues.new) }
    ensures same { Pairs HasTestsOf queues.old queues.new }
{
    judge_history::<Altered<CacheEngine>>(alloc, form, entries, queues)
}

/// That of a list structure with event queues.
pub(crate) fn judge_list(
    alloc: Global,
    form: &StrForm,
    entries: &[Entry<QueueCmd, QueueReply>],
    queues: &mut [Queue],
) -> Result<Judged, NoMemory>
    requires formed { IsForm form.now }
    requires kind { IsTrue (is_list form.now.kind) }
    requires askable { All IsAskable entries.now }
    requires room { length entries.now < 18446744073709551613 }
    requires rising { All IsRising queues.old }
    ensures judged { IfOk result (IsJudged queued_lists form.now entries.now) }
    ensures told { IfOk result (λ found. found ≡ judged.Legal
        → All (AreSettled queued_lists form.now entries.now) queues.new) }
    ensures same { Pairs HasTestsOf queues.old queues.new }
{
    judge_history::<QueueEngine>(alloc, form, entries, queues)
}

/// That of a lock structure.
pub(crate) fn judge_lock(
    alloc: Global,
    form: &StrForm,
    entries: &[Entry<LockCmd, LockReply>],
    queues: &mut [Queue],
) -> Result<Judged, NoMemory>
    requires formed { IsForm form.now }
    requires kind { IsTrue (is_lock form.now.kind) }
    requires askable { All IsAskable entries.now }
    requires room { length entries.now < 18446744073709551613 }
    requires rising { All IsRising queues.old }
    ensures judged { IfOk result (IsJudged lock_meaning form.now entries.now) }
    ensures told { IfOk result (λ found. found ≡ judged.Legal
        → All (AreSettled lock_meaning form.now entries.now) queues.new) }
    ensures same { Pairs HasTestsOf queues.old queues.new }
{
    judge_history::<LockEngine>(alloc, form, entries, queues)
}
