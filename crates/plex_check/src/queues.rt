//! The tests of a structure that callers' items show, a queue for each caller.
ghost use Rattle.std.specs.Prelude.{◌<◌, ◌≤◌, ◌+◌, IfOk, All, length};
ghost use Rattle.cf_types.specs.declared.limits.TheConstants.{CONNECTORS};
ghost use Rattle.cf_types.specs.Forms.{IsCaller};
ghost use Rattle.history_check.specs.Queues.{IsRising};
ghost use Rattle.check_model.specs.RunShown.Headline.{place_of};
ghost use Rattle.plex_check.specs.Checks.{AreQueuesOf, AreShownOf, IsQueueOf};

use caller_waits::items::in_order;
use caller_waits::queue_of;
use cf_types::{ConnId, NoMemory, StrNo};
use check_model::Printed;
use check_model::shown::scripts::{AnyHistory, Shown};
use std::alloc::Global;
use vector_waits::Queue;

// The tests of one caller.
fn caller_queue(
    alloc: Global,
    vector: u32,
    on: StrNo,
    histories: &[AnyHistory],
    conn: ConnId,
    items: &[Shown],
) -> Result<Queue, NoMemory>
    requires caller { IsCaller conn }
    requires places { All (λ item. (place_of item).0 < length histories.now) items.now }
    ensures queue { IfOk result (IsQueueOf histories.now on vector conn items.now) }
    ensures rising { IfOk result IsRising }
{
    let many = in_order(alloc, histories, items)?;
    queue_of(alloc, vector, on, conn, &items[..many])
}

/// The tests of all callers.
pub(crate) fn caller_queues(
    alloc: Global,
    vector: u32,
    on: StrNo,
    printed: &Printed,
) -> Result<Vec<Queue>, NoMemory>
    requires callers { length printed.now.transcripts ≤ CONNECTORS + 1 }
    requires places { AreShownOf printed.now }
    ensures queues { IfOk result (λ queues. AreQueuesOf printed.now.histories on vector
        printed.now.transcripts (length printed.now.transcripts) queues.items) }
    ensures rising { IfOk result (λ queues. All IsRising queues.items) }
{
    let transcripts = printed.transcripts.items();
    let histories = printed.histories.items();
    let mut queues = Vec::new(alloc);
    let many = transcripts.len() as u8;
    for number in 0..many {
        let items = transcripts[usize::from(number)].items.items();
        let conn = ConnId(number);
        queues.push(caller_queue(alloc, vector, on, histories, conn, items)?)?;
    }
    Ok(queues)
}
