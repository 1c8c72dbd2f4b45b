//! How a board ends.
ghost use Rattle.std.specs.Prelude.{◌≡◌, ◌+◌, ◌≤◌, ◌++◌, length};
ghost use Rattle.std.specs.List.{flat_map};
ghost use Rattle.std.specs.Vec.{vec_len, vec_capacity};
ghost use Rattle.std.specs.Vec.Iter.{into_iter_items, into_iter_len};
ghost use Rattle.plex_board.specs.Boards.{four_of, AreEachAsked};
ghost use Rattle.plex_board.specs.Openings.{IsUnused};
ghost use Rattle.plex_board.specs.Rests.{each_with, home_with, homes_shown, Fits, AllFit, homes_gathered, AreHomes, AreEnded, IsRoomy};

use crate::any_pass::AnyPasses;
use crate::desk::Desk;
use crate::kinds::Kinds;
use crate::place::Place;
use crate::rest::Rest;
use crate::station::Station;
use plex_script::AnyHistory;
use std::sync::Wait;
use std::vec::IntoIter;
use struct_cell::links::{Link, Links};

// The passes of a caller go home.
fn bring_home(homes: &mut Vec<AnyPasses>, places: Vec<Place>)
    requires { Fits places.items (homes_shown homes.old.items) }
    ensures { homes_shown homes.new.items
        ≡ each_with home_with places.items (homes_shown homes.old.items) }
{
    let mut places = places;
    while let Some(place) = places.pop() {
        homes[places.len()].put(place.into_pass());
    }
}

/// The passes of all callers go home.
pub(crate) fn gather(homes: &mut Vec<AnyPasses>, desks: Vec<Desk>)
    requires { AllFit desks.items (homes_shown homes.old.items) }
    ensures { homes_shown homes.new.items
        ≡ homes_gathered desks.items (homes_shown homes.old.items) }
{
    for desk in desks {
        bring_home(homes, desk.into_places());
    }
}

/// Puts the links of a structure behind others.
pub(crate) fn push_four<L>(links: &mut Vec<L>, four: Links<L>)
    requires { vec_len links.old + 4 ≤ vec_capacity links.old }
    ensures items { links.new.items ≡ links.old.items ++ four_of four }
    ensures capacity { vec_capacity links.new ≡ vec_capacity links.old }
{
    let Links {
        one,
        two,
        three,
        four,
    } = four;
    links.push_reserved(one);
    links.push_reserved(two);
    links.push_reserved(three);
    links.push_reserved(four);
}

/// Puts the links that are left behind others.
pub(crate) fn push_left<L: Drop>(links: &mut Vec<L>, left: IntoIter<L>)
    requires { vec_len links.old + into_iter_len left ≤ vec_capacity links.old }
    ensures items { links.new.items ≡ links.old.items ++ into_iter_items left }
    ensures capacity { vec_capacity links.new ≡ vec_capacity links.old }
{
    for link in left {
        links.push_reserved(link);
    }
}

/// Ends the structures, whose passes are at home: their histories, and all links, asked as these
/// tell, those of the first structure first and the spare ones last. It may wait for turns, and
/// takes no memory.
pub(crate) fn end<K: Kinds, L: Link>(
    rt: &impl Wait,
    stations: Vec<Station<K, L>>,
    rest: Rest<L>,
) -> (Vec<AnyHistory>, Vec<L>)
    requires homes { AreHomes 0 stations.items (homes_shown rest.homes.items) }
    requires room { IsRoomy (length stations.items) rest }
    ensures histories { AreEnded stations.items (homes_shown rest.homes.items) result.0.items }
    ensures links { AreEachAsked L.calls L.downs L.faults stations.items result.0.items
        rest.spare.items result.1.items }
{
    let Rest {
        homes,
        mut histories,
        mut links,
        spare,
    } = rest;
    let mut homes = homes.into_iter();
    for station in stations {
        let home = homes.next().unwrap();
        let (history, four) = station.close(rt, home);
        histories.push_reserved(history);
        push_four(&mut links, four);
    }
    push_left(&mut links, spare.into_iter());
    (histories, links)
}

/// Ends structures that nobody has called yet: all links come back, in their order.
pub(crate) fn end_unused<K: Kinds, L: Link>(
    rt: &impl Wait,
    stations: Vec<Station<K, L>>,
    rest: Rest<L>,
    desks: Vec<Desk>,
) -> Vec<L>
    requires unused { IsUnused stations.items (homes_shown rest.homes.items) desks.items }
    requires room { IsRoomy (length stations.items) rest }
    ensures { result.items
        ≡ flat_map (λ cell. four_of cell.links) stations.items ++ rest.spare.items }
{
    let mut rest = rest;
    gather(&mut rest.homes, desks);
    end(rt, stations, rest).1
}
