//! READ_COSTATS of IXLCACHE: how many rows each castout class has.
ghost use Rattle.std.specs.Prelude.{◌≡◌, IfOk, OnOk, ◌++◌, ◌∷◌, []};
ghost use Rattle.std.specs.List.{range_with_len};
ghost use Rattle.cf_types.specs.declared.limits.TheConstants.{CASTOUT_CLASSES};
ghost use Rattle.cache_model.specs.Commands.CoStats as co_stats;

use cache_rows::Rows;
use cf_types::limits::CASTOUT_CLASSES;
use cf_types::{CacheReply, Listing, NoMemory};
use std::alloc::Global;

// A class with its number of rows, if it has any.
fn push(counts: &mut Vec<(u32, u32)>, rows: &Rows, class: u32) -> Result<(), NoMemory>
    ensures { OnOk result (counts.new.items
        ≡ counts.old.items ++ co_stats.class_counts rows.now.rows (class ∷ [])) }
{
    let count = rows.count_of_class(class);
    if count != 0 {
        counts.push((class, count))?;
    }
    Ok(())
}

// The classes that have rows, with their numbers.
fn class_counts(alloc: Global, rows: &Rows) -> Result<Vec<(u32, u32)>, NoMemory>
    ensures { IfOk result (λ counts. counts.items
        ≡ co_stats.class_counts rows.now.rows (range_with_len 1 CASTOUT_CLASSES)) }
{
    let mut counts = Vec::new(alloc);
    for class in 1..CASTOUT_CLASSES + 1 {
        push(&mut counts, rows, class)?;
    }
    Ok(counts)
}

/// The reply.
pub(crate) fn reply(alloc: Global, rows: &Rows) -> Result<CacheReply, NoMemory>
    ensures { IfOk result (λ reply. reply ≡ co_stats.reply rows.now.rows) }
{
    let counts = class_counts(alloc, rows)?;
    Ok(CacheReply::Stats(Listing::from_vec(counts)))
}
