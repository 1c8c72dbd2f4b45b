//! Links that are down at calls which a text lists.
ghost use Rattle.std.specs.Prelude.{◌≡◌, ◌≤◌, IfOk, length};
ghost use Rattle.example_runs.specs.declared.listed.TheConstants.{LINKS};

use plex_run::links::ListLink;
use std::alloc::{AllocError, Global};
use std::io;

/// How many links there are to the facilities: four for each of 16 structures.
pub const LINKS: usize = 64;

/// Links of which each is down at the calls that the text lists for it. A line has the place of a
/// structure in its script, from 0, the number of a facility, and the number of a call of the link
/// between them, from 1.
pub fn listed(alloc: Global, text: &str) -> io::Result<Vec<ListLink>>
    ensures { IfOk result (λ links. length links.items ≡ LINKS) }
{
    let mut links = steady(alloc)?;
    for line in text.lines() {
        if let Some((place, call)) = call_of(line) {
            list(&mut links, place, call)?;
        }
    }
    Ok(links)
}

// Links that are never down.
fn steady(alloc: Global) -> Result<Vec<ListLink>, AllocError>
    ensures { IfOk result (λ links. length links.items ≡ LINKS) }
{
    let mut links = Vec::with_capacity(alloc, LINKS)?;
    for _ in 0..LINKS {
        links.push(ListLink {
            calls: 0,
            fails: Vec::new(alloc),
            faults: 0,
        })?;
    }
    Ok(links)
}

// One more call of a link is answered that it is down.
fn list(links: &mut Vec<ListLink>, place: usize, call: u64) -> Result<(), AllocError>
    ensures { length links.new.items ≡ length links.old.items }
{
    if let Some(link) = links.get_mut(place) {
        link.fails.push(call)?;
    }
    Ok(())
}

// The place of the link that a line names, and the call.
fn call_of(line: &str) -> Option<(usize, u64)> {
    let mut words = line.split_whitespace();
    let structure = words.next()?.parse::<usize>().ok()?;
    let facility = words.next()?.parse::<usize>().ok()?;
    let call = words.next()?.parse::<u64>().ok()?;
    let place = structure
        .checked_mul(4)?
        .checked_add(facility)?
        .checked_sub(1)?;
    Some((place, call))
}
