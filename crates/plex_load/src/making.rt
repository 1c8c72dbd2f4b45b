//! The script of a load.

ghost use Rattle.std.specs.Prelude.{◌≡◌, IfOk};
ghost use Rattle.plex_load.specs.Generated.{lines_of_first, load_script};
ghost use Rattle.plex_load.specs.Loads.{IsLoad};

use crate::numbers::seed;
use crate::policy::{CALLERS, connectors, facilities, structures};
use crate::work::put_connector;
use plex_script::types::{Listing, NoMemory};
use plex_script::{Line, Script};
use std::alloc::Global;

// The lines of all connectors.
#[tactic(auto, using(crate::proofs::NumberLaws::first_none, crate::proofs::NumberLaws::first_more, crate::proofs::NumberLaws::callers_none, crate::proofs::NumberLaws::callers_more))]
fn lines(alloc: Global, n: u32) -> Result<Listing<Line>, NoMemory>
    ensures { IfOk result (λ lines. lines ≡ lines_of_first n 4) }
{
    let mut lines = Vec::new(alloc);
    let mut number = seed(n);
    for caller in 0..CALLERS {
        number = put_connector(alloc, &mut lines, caller, number)?;
    }
    Ok(Listing::from_vec(lines))
}

// The policy and the lines.
#[tactic(auto, unfolding(crate::specs::Generated::load_script))]
fn script(alloc: Global, n: u32) -> Result<Script, NoMemory>
    ensures { IfOk result (λ script. script ≡ load_script n) }
{
    Ok(Script {
        facilities: facilities(alloc)?,
        structures: structures(alloc)?,
        connectors: connectors(alloc)?,
        lines: lines(alloc, n)?,
    })
}

/// The script that is made from a number, of which the last 31 bits count. Connectors A to D
/// connect to a cache structure (IXLCONN), and each has 1,000 lines: of each four, one writes a
/// page (IXLCACHE WRITE_DATA), two read one (READ_DATA), and one tests the bit of one (IXLVECTR).
/// There are 64 pages, and the number says which are taken. The script's text has 4,011 lines.
///
/// # Errors
///
/// `NoMemory` where there is no memory for its lines.
#[tactic(auto, using(crate::proofs::LoadLaws::holds_of_load))]
pub fn make(alloc: Global, n: u32) -> Result<Script, NoMemory>
    ensures script { IfOk result (λ script. script ≡ load_script n) }

    // It keeps the forms, the ranges and the limits of the language, and its printed text says it
    // again; its lines and closings make 3,008 calls at most.
    ensures load { IfOk result IsLoad }
{
    script(alloc, n)
}
