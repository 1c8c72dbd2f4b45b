//! Room for a request: which unchanged rows are reclaimed for it.
ghost use Rattle.std.specs.Prelude.{◌≡◌, ◌^◌, ◌<◌, Some, IfOk, length, option_map};
ghost use Rattle.std.specs.Result.{result_err};
ghost use Rattle.cache_model.specs.Rows.{elements_in};
ghost use Rattle.cache_model.specs.Room.{victims, room_refusal};
ghost use Rattle.cache_core.specs.Measure.{room_for, has_place, free_elements, is_enough, reclaimable_of, other_than, victim_at, reclaimable_from, front_names};

use crate::refusals::Judged;
use cache_model::Request;
use cache_rows::{Row, Rows};
use cf_types::{Caps, Name16, NoMemory, Refusal};
use std::alloc::Global;

/// What decides whether there is room for a request: whether its name has a row, how many rows
/// there are and may be, how many elements the data of others take, how many there are, and how
/// many are asked for.
#[derive(Clone, Copy)]
pub(crate) struct Room {
    pub named: bool,
    pub rows: usize,
    pub entries: u32,
    pub others: u32,
    pub elements: u32,
    pub need: u32,
}

/// A row that may be reclaimed.
#[derive(Clone, Copy)]
pub(crate) struct Reclaimable {
    pub name: Name16,
    pub elements: u32,
}

impl Room {
    // What decides about a request.
    fn measure(caps: Caps, rows: &Rows, request: &Request) -> Room
        requires { elements_in rows.now.rows < 2 ^ 32 }
        ensures { result ≡ room_for caps request.now rows.now.rows }
    {
        Room {
            named: rows.has(&request.name),
            rows: rows.len(),
            entries: caps.entries,
            others: rows.elements_of_others(&request.name),
            elements: caps.elements,
            need: request.elements,
        }
    }

    // Whether there is a place for the row once so many are gone.
    fn has_place(&self, count: usize) -> bool
        ensures { result ≡ has_place self.now count }
    {
        self.named || self.rows.saturating_sub(count) < self.entries as usize
    }

    // How many elements are free once so many are given back.
    fn free_elements(&self, given: u32) -> u32
        ensures { result ≡ free_elements self.now given }
    {
        self.elements
            .saturating_sub(self.others.saturating_sub(given))
    }

    // Whether there is room.
    fn is_enough(&self, count: usize, given: u32) -> bool
        ensures { result ≡ is_enough self.now count given }
    {
        self.has_place(count) && self.need <= self.free_elements(given)
    }
}

/// Why there is no room for a request, even where every other unchanged row is reclaimed for it.
#[tactic(auto, using(crate::proofs::FrontLaws::refusal_told))]
pub(crate) fn room_refusal(caps: Caps, rows: &Rows, request: &Request) -> Judged
    requires { elements_in rows.now.rows < 2 ^ 32 }
    ensures { result_err result ≡ room_refusal caps request.now rows.now.rows }
{
    let room = Room::measure(caps, rows, request);
    let count = rows.reclaimable_count(&request.name);
    if !room.has_place(count) {
        return Err(Refusal::DirectoryFull {
            entries: caps.entries,
        });
    }
    let free = room.free_elements(rows.reclaimable_elements(&request.name));
    if request.elements <= free {
        Ok(())
    } else {
        Err(Refusal::NoElements {
            need: request.elements,
            free,
        })
    }
}

// The row that is reclaimed at a place (from 0) for a command; none where that is the command's
// own, or past the end.
fn victim_at(rows: &Rows, request: &Request, k: u32) -> Option<Reclaimable>
    ensures { result ≡ victim_at request.now rows.now.rows k }
{
    match rows.reclaimed(request.stg, k) {
        None => None,
        Some(row) => reclaimable_for(&row, &request.name),
    }
}

// What a row gives if it is reclaimed, unless it is the row of this name.
fn reclaimable_for(row: &Row<'_>, name: &Name16) -> Option<Reclaimable>
    ensures { result ≡ option_map reclaimable_of (other_than name.now (Some row.now)) }
{
    if row.name() == *name {
        None
    } else {
        Some(Reclaimable {
            name: row.name(),
            elements: row.elements(),
        })
    }
}

// The names of as few rows from the front of the order of reclaiming as leave room.
fn front(
    alloc: Global,
    rows: &Rows,
    request: &Request,
    room: &Room,
) -> Result<Vec<Name16>, NoMemory>
    requires few { length rows.now.rows < 2 ^ 32 }
    requires elements { elements_in rows.now.rows < 2 ^ 32 }
    ensures { IfOk result (λ names. names.items
        ≡ front_names room.now (reclaimable_from request.now rows.now.rows 0)) }
{
    let mut names = Vec::new(alloc);
    let mut given = 0;
    for k in 0..rows.len() as u32 {
        if room.is_enough(names.len(), given) {
            return Ok(names);
        }
        match victim_at(rows, request, k) {
            Some(row) => {
                names.push(row.name)?;
                given += row.elements;
            }
            None => {}
        }
    }
    Ok(names)
}

/// The names of the rows that are reclaimed for a request.
#[tactic(auto, using(crate::proofs::FrontLaws::victims_told))]
pub(crate) fn victims(
    alloc: Global,
    caps: Caps,
    rows: &Rows,
    request: &Request,
) -> Result<Vec<Name16>, NoMemory>
    requires few { length rows.now.rows < 2 ^ 32 }
    requires elements { elements_in rows.now.rows < 2 ^ 32 }
    ensures { IfOk result (λ names. names.items ≡ victims caps request.now rows.now.rows) }
{
    let room = Room::measure(caps, rows, request);
    front(alloc, rows, request, &room)
}
