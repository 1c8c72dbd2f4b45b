//! The links to the facilities.
ghost use Rattle.std.specs.Prelude.{◌≡◌, ◌∷◌, [], IfOk, length};
ghost use Rattle.plex_board.specs.CfTypes.declared.limits.TheConstants.{LINKS};
ghost use Rattle.failover.specs.Failing.{AreDownOnce, IsDownAt};

use plex_board::links::ListLink;
use plex_board::types::limits::LINKS;
use std::alloc::{AllocError, Global};

/// Of the first structure's links the one to CF1 is down at its third call, and the one to CF2 at
/// its fifth. The others are never down.
pub fn links(alloc: Global) -> Result<Vec<ListLink>, AllocError>
    ensures count { IfOk result (λ links. length links.items ≡ LINKS) }
    ensures down { IfOk result (λ links. AreDownOnce links.items) }
{
    let mut links = Vec::new(alloc);
    links.push(down_at(alloc, 3)?)?;
    links.push(down_at(alloc, 5)?)?;
    for _ in 2..LINKS {
        links.push(steady(alloc))?;
    }
    Ok(links)
}

// A link that is down at this call.
fn down_at(alloc: Global, call: u64) -> Result<ListLink, AllocError>
    ensures { IfOk result (IsDownAt call) }
{
    Ok(ListLink {
        calls: 0,
        fails: Vec::from_slice(alloc, &[call])?,
        faults: 0,
    })
}

// A link that is never down.
fn steady(alloc: Global) -> ListLink {
    ListLink {
        calls: 0,
        fails: Vec::new(alloc),
        faults: 0,
    }
}
