//! The history of a structure of whatever kind.
ghost use Rattle.std.specs.Prelude.{◌≡◌, ◌<◌, IfOk, All, length};
ghost use Rattle.cf_types.specs.Forms.{IsForm};
ghost use Rattle.history_check.specs.Queues.{HasTestsOf, IsRising, Pairs};
ghost use Rattle.history_check.specs.declared.judged.Judged.TheVariants as judged;
ghost use Rattle.check_model.specs.RunShown.Kinds.{IsOfKind, MayAskAny};
ghost use Rattle.check_model.specs.RunShown.PlexScript.Heard.{any_calls};
ghost use Rattle.caller_check.specs.Tables.{AnySettled};
ghost use Rattle.plex_check.specs.Checks.{IsAnyJudged};

use crate::histories::{judge_cache, judge_list, judge_lock};
use cf_types::{NoMemory, StrForm};
use check_model::shown::scripts::AnyHistory;
use history_check::Judged;
use std::alloc::Global;
use vector_waits::Queue;

/// Judges the history of a structure, and asks the tests of all its callers on the way: whether it
/// is legal, or where its first bad block begins. A test is told where a legal history shows it.
///
/// # Errors
///
/// Want of memory. The tests are those of before, and nothing is said of which are told.
pub fn judge_any(
    alloc: Global,
    form: &StrForm,
    entries: &AnyHistory,
    queues: &mut [Queue],
) -> Result<Judged, NoMemory>
    requires formed { IsForm form.now }
    requires kind { IsOfKind form.now.kind entries.now }
    requires askable { All (λ call. MayAskAny call.by call.ask) (any_calls entries.now) }
    requires rising { All IsRising queues.old }
    ensures judged { IfOk result (IsAnyJudged form.now entries.now) }
    ensures told { IfOk result (λ found. found ≡ judged.Legal
        → All (AnySettled form.now entries.now) queues.new) }
    ensures same { Pairs HasTestsOf queues.old queues.new }
{
    match entries {
        AnyHistory::Cache(history) => judge_cache(alloc, form, history.entries(), queues),
        AnyHistory::List(history) => judge_list(alloc, form, history.entries(), queues),
        AnyHistory::Lock(history) => judge_lock(alloc, form, history.entries(), queues),
    }
}
