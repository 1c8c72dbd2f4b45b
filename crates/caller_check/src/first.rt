ghost use Rattle.std.specs.Prelude.{◌≡◌, ◌<◌, ◌≤◌, All, IfOk, IfSome, None, length};
ghost use Rattle.caller_slots.specs.RunShown.Headline.{place_of};
ghost use Rattle.caller_slots.specs.RunShown.PlexScript.WellFormed.{IsWellFormed};
ghost use Rattle.check_model.specs.Judged.{AreLegalBelow, IsBadItemOf};
ghost use Rattle.check_model.specs.Printings.{IsPrintedOf};
ghost use Rattle.caller_check.specs.First.{AreItemsOf, HaveQueuesInOrder, IsFirstWrong, IsGoodOf, first_bad, least_bad};
ghost use Rattle.caller_check.specs.Tables.{AreAnswered, rows_of};
ghost use Rattle.caller_check.specs.Untold.{HaveRows};

use crate::untold::first_untold;
use caller_items::in_order;
use caller_slots::shown::scripts::types::{ConnId, NoMemory, StrForm};
use caller_slots::shown::scripts::{AnyHistory, Script, Shown};
use caller_walk::{Count, walk};
use check_model::Printed;
use std::alloc::Global;
use vector_waits::Queue;

// The items of a caller's transcript.
fn items_of(printed: &Printed, conn: ConnId) -> &[Shown]
    requires { conn.0 < length printed.now.transcripts }
    ensures { AreItemsOf printed.now conn result.now }
{
    printed.transcripts.items()[usize::from(conn.0)]
        .items
        .items()
}

// How many of a caller's items, from the first on, are in order and tell what stood.
fn first_wrong(
    alloc: Global,
    structures: &[StrForm],
    histories: &[AnyHistory],
    tables: &[Vec<Queue>],
    conn: ConnId,
    items: &[Shown],
) -> Result<usize, NoMemory>
    requires many { length histories.now ≡ length structures.now }
    requires rows { HaveRows structures.now (rows_of tables.now) conn }
    requires queues { HaveQueuesInOrder structures.now histories.now (rows_of tables.now) conn items.now }
    requires known { All (λ item. (place_of item).0 < length structures.now) items.now }
    ensures { IfOk result (IsFirstWrong structures.now histories.now conn items.now) }
{
    let ordered = in_order(alloc, histories, items)?;
    let told = first_untold(
        alloc,
        structures,
        histories,
        tables,
        conn,
        &items[..ordered],
    )?;
    Ok(told)
}

// The first bad item, from 1, where so many are what is due, and so many are right.
fn least_bad(count: Count, right: usize, many: usize) -> Option<usize>
    requires { right < 18446744073709551615 }
    ensures { result ≡ least_bad count right many }
{
    let place = count.fitting.min(right);
    if place == many && !count.differs {
        return None;
    }
    Some(place + 1)
}

// The same; the first where the caller's calls aren't what its lines ask.
fn first_bad(walked: Option<Count>, right: usize, many: usize) -> Option<usize>
    requires { right < 18446744073709551615 }
    ensures { result ≡ first_bad walked right many }
{
    match walked {
        None => Some(1),
        Some(count) => least_bad(count, right, many),
    }
}

/// The first item of a caller's transcript that is wrong, from 1, where all histories are legal and
/// have answered the tests that the caller's items show: so none where the transcript is good. It is
/// the first where the caller's calls in the histories aren't what its lines ask, and the number
/// behind the last where items are lacking.
///
/// # Errors
///
/// Want of memory for where the caller stands at each structure.
pub fn first_bad_item(
    alloc: Global,
    script: &Script,
    printed: &Printed,
    tables: &[Vec<Queue>],
    conn: ConnId,
) -> Result<Option<usize>, NoMemory>
    requires formed { IsWellFormed script.now }
    requires printed { IsPrintedOf script.now printed.now }
    requires known { conn.0 ≤ length script.now.connectors }
    requires legal { AreLegalBelow script.now printed.now.histories (length script.now.structures) }
    requires answered { AreAnswered script.now printed.now (rows_of tables.now) }
    ensures good { IfOk result (λ bad. bad ≡ None → IsGoodOf script.now printed.now conn) }
    ensures bad { IfOk result (λ bad. IfSome bad (IsBadItemOf script.now printed.now conn)) }
{
    let items = items_of(printed, conn);
    let histories = printed.histories.items();
    let structures = script.structures.items();
    let walked = walk(alloc, script, histories, conn, items)?;
    let right = first_wrong(alloc, structures, histories, tables, conn, items)?;
    Ok(first_bad(walked, right, items.len()))
}
