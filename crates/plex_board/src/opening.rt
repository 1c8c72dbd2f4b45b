//! How a board begins.
ghost use Rattle.std.specs.Prelude.{◌≡◌, ◌+◌, ◌*◌, ◌<◌, ◌≤◌, ◌++◌, ◌∷◌, [], ℕ, IfOk, IfErr, OnOk, OnErr, All, length, map};
ghost use Rattle.std.specs.List.{flat_map, range_with_len};
ghost use Rattle.std.specs.Vec.{vec_len};
ghost use Rattle.std.specs.Vec.Iter.{into_iter_items, into_iter_len};
ghost use Rattle.plex_script.specs.CfTypes.declared.limits.TheConstants.{CONNECTORS, STRUCTURES, LINKS};
ghost use Rattle.plex_script.specs.CfTypes.Forms.{IsForm};
ghost use Rattle.plex_board.specs.Passes.{pass_shown, passes_shown, type_of_passes, room_of};
ghost use Rattle.plex_board.specs.Boards.{four_of};
ghost use Rattle.plex_board.specs.Rests.{each_with};
ghost use Rattle.plex_board.specs.Openings.{IsOpening, bare_desk, desk_at, desk_with};

use crate::any_pass::{AnyPass, AnyPasses};
use crate::board::Board;
use crate::desk::Desk;
use crate::ending::{end_unused, push_four, push_left};
use crate::kinds::Kinds;
use crate::place::Place;
use crate::rest::Rest;
use crate::station::Station;
use plex_script::types::limits::{LINKS, STRUCTURES};
use plex_script::types::{ConnId, NoMemory, StrForm};
use std::alloc::Global;
use std::sync::Wait;
use std::vec::IntoIter;
use struct_cell::links::{Link, Links};
use struct_cell::shells::copy_form;
use struct_cell::turns::KeyLock;

/// A board as its structures are made, one after the other.
#[derive(Drop)]
pub(crate) struct Opening<K: Kinds, L: Link> {
    pub(crate) stations: Vec<Station<K, L>>,
    pub(crate) rest: Rest<L>,
    pub(crate) desks: Vec<Desk>,
}

impl<K: Kinds, L: Link> Opening<K, L> {
    /// All memory that doesn't need links, and desks without places.
    pub(crate) fn new(alloc: Global, callers: u8) -> Result<Opening<K, L>, NoMemory>
        requires { callers ≤ CONNECTORS }
        ensures opening { IfOk result (λ opening. (limit : ℕ) → IsOpening callers limit opening) }
        ensures none { IfOk result (λ opening. opening.stations.items ≡ []) }
    {
        Ok(Opening {
            stations: Vec::with_capacity(alloc, STRUCTURES as usize)?,
            rest: Rest {
                homes: Vec::with_capacity(alloc, STRUCTURES as usize)?,
                histories: Vec::with_capacity(alloc, STRUCTURES as usize)?,
                links: Vec::with_capacity(alloc, LINKS)?,
                spare: Vec::with_capacity(alloc, LINKS)?,
            },
            desks: new_desks(alloc, callers)?,
        })
    }

    /// Makes a structure of this form, and deals its passes to the desks.
    ///
    /// # Errors
    ///
    /// Where there is no memory the links come back, with the cause, and nothing was done.
    pub(crate) fn add(
        &mut self,
        rt: &impl Wait,
        alloc: Global,
        form: &StrForm,
        callers: u8,
        limit: u32,
        links: Links<L>,
    ) -> Result<(), (Links<L>, NoMemory)>
        requires formed { IsForm form.now }
        requires callers { callers ≤ CONNECTORS }
        requires limit { (1 ≤ limit) × (limit ≤ 4294967000) }
        requires opening { IsOpening callers limit self.old }
        requires few { length self.old.stations.items < STRUCTURES }
        ensures opening { OnOk result (IsOpening callers limit self.new) }
        ensures forms { OnOk result (map (λ cell. cell.form) self.new.stations.items
            ≡ map (λ cell. cell.form) self.old.stations.items ++ form.now ∷ []) }
        ensures links { OnOk result (flat_map (λ cell. four_of cell.links) self.new.stations.items
            ≡ flat_map (λ cell. four_of cell.links) self.old.stations.items ++ four_of links) }
        ensures handed_back { IfErr result (λ back. back.0 ≡ links) }
        ensures same { OnErr result (self.new ≡ self.old) }
    {
        let form = match copy_form(alloc, form) {
            Ok(form) => form,
            Err(cause) => return Err((links, cause)),
        };
        let (station, mut home) = Station::start(rt, alloc, form, callers, limit, links)?;
        deal(&mut self.desks, &mut home);
        self.stations.push_reserved(station);
        self.rest.homes.push_reserved(home);
        Ok(())
    }

    /// Ends the structures made so far. All links come back: theirs, these four, and those left.
    pub(crate) fn give_up(
        self,
        rt: &impl Wait,
        callers: u8,
        limit: u32,
        four: Links<L>,
        left: IntoIter<L>,
    ) -> Vec<L>
        requires opening { IsOpening callers limit self }
        requires links { 4 * length self.stations.items + 4 + into_iter_len left ≤ LINKS }
        ensures { result.items ≡ flat_map (λ cell. four_of cell.links) self.stations.items
            ++ four_of four ++ into_iter_items left }
    {
        let Opening {
            stations,
            mut rest,
            desks,
        } = self;
        push_four(&mut rest.spare, four);
        push_left(&mut rest.spare, left);
        end_unused(rt, stations, rest, desks)
    }

    /// The board, whose spare links are those left.
    ///
    /// # Errors
    ///
    /// Where there is no memory all links come back, with the cause.
    pub(crate) fn open(
        self,
        rt: &impl Wait,
        alloc: Global,
        callers: u8,
        limit: u32,
        left: IntoIter<L>,
    ) -> Result<(Board<K, L>, Vec<Desk>), (Vec<L>, NoMemory)>
        requires callers { callers ≤ CONNECTORS }
        requires opening { IsOpening callers limit self }
        requires few { length self.stations.items ≤ STRUCTURES }
        requires links { 4 * length self.stations.items + into_iter_len left ≤ LINKS }
        ensures board { IfOk result (λ r. r.0 ≡ record {
          cells = self.stations.items;
          callers = callers;
          spare = into_iter_items left;
        }) }
        ensures desks { IfOk result (λ r. r.1.items
            ≡ map (desk_at self.stations.items) (range_with_len 0 (callers + 1))) }
        ensures handed_back { IfErr result (λ back. back.0.items
            ≡ flat_map (λ cell. four_of cell.links) self.stations.items
            ++ into_iter_items left) }
    {
        let Opening {
            stations,
            mut rest,
            desks,
        } = self;
        push_left(&mut rest.spare, left);
        match KeyLock::new(alloc, rest) {
            Ok(rest) => Ok((Board::of(stations, callers, rest), desks)),
            Err((rest, cause)) => Err((end_unused(rt, stations, rest, desks), cause)),
        }
    }
}

// A desk without places for each caller from the operator, 0, on.
fn new_desks(alloc: Global, callers: u8) -> Result<Vec<Desk>, NoMemory>
    requires { callers ≤ CONNECTORS }
    ensures { IfOk result (λ desks. desks.items
        ≡ map bare_desk (range_with_len 0 (callers + 1))) }
{
    let mut desks = Vec::new(alloc);
    for owner in 0..callers + 1 {
        desks.push(bare_desk(alloc, owner)?)?;
    }
    Ok(desks)
}

// A desk without places, with room for one at each structure.
fn bare_desk(alloc: Global, owner: u8) -> Result<Desk, NoMemory>
    ensures { IfOk result (λ desk. desk ≡ bare_desk owner) }
{
    Ok(Desk {
        owner: ConnId(owner),
        places: Vec::with_capacity(alloc, STRUCTURES as usize)?,
    })
}

// Each desk gets its caller's pass, the last first.
fn deal(desks: &mut Vec<Desk>, home: &mut AnyPasses)
    requires count { length (passes_shown home.old) ≡ vec_len desks.old }
    requires unused { All (λ pass. pass.calls ≡ []) (passes_shown home.old) }
    requires few { All (λ desk. length desk.passes < STRUCTURES) desks.old.items }
    ensures desks { desks.new.items
        ≡ each_with desk_with (passes_shown home.old) desks.old.items }
    ensures empty { passes_shown home.new ≡ [] }
    ensures str_type { type_of_passes home.new ≡ type_of_passes home.old }
    ensures room { room_of home.new ≡ room_of home.old }
{
    let mut owner = desks.len();
    while let Some(pass) = home.pop() {
        owner -= 1;
        deal_one(&mut desks[owner], pass);
    }
}

// A desk gets a pass.
fn deal_one(desk: &mut Desk, pass: AnyPass)
    requires unused { (pass_shown pass).calls ≡ [] }
    requires few { length desk.old.passes < STRUCTURES }
    ensures { desk.new ≡ desk_with (pass_shown pass) desk.old }
{
    desk.places.push_reserved(Place::new(pass));
}

/// The links of the next structure.
pub(crate) fn next_four<L>(left: &mut IntoIter<L>) -> Links<L>
    requires { 4 ≤ into_iter_len left.old }
    ensures items { into_iter_items left.old ≡ four_of result ++ into_iter_items left.new }
    ensures len { into_iter_len left.new + 4 ≡ into_iter_len left.old }
{
    Links {
        one: left.next().unwrap(),
        two: left.next().unwrap(),
        three: left.next().unwrap(),
        four: left.next().unwrap(),
    }
}
