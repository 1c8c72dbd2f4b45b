ghost use Rattle.std.specs.Prelude.{◌≡◌, ◌+◌, ◌^◌, ◌<◌, ◌≤◌, OnOk, length};
ghost use Rattle.std.specs.Vec.{vec_len, vec_capacity};
ghost use Rattle.struct_cell.specs.Cells.{IsCell};
ghost use Rattle.struct_cell.specs.Marks.{entered};

use crate::touched::Touched;
use cf_turn::Keeps;
use cf_types::{ConnId, NoMemory, StrForm};
use engine_api::{Ask, Engine, Entry, Reply, What};
use std::marker::{Model, PhantomData};
use struct_machine::links::{Link, Links};
use struct_machine::{Changed, Machine, Mark};
use vec_words::{EngineSeat, Vectors};

/// What lies under a cell's lock: the structure's machine, with its links, and its journal, and the
/// seat by which words are stored.
#[derive(Drop)]
pub struct Inside<E: Engine, L: Link> {
    pub(crate) limit: u32,
    pub(crate) machine: Machine<E, L>,
    pub(crate) changed: Changed,
    pub(crate) touched: Touched,
    pub(crate) journal: Vec<Entry<E::Cmd, E::Reply>>,
    pub(crate) seat: EngineSeat<(Ask<E::Cmd>, Reply<E::Reply>)>,
}

/// The most entries that a call adds: its own, and those of the two links that it may ask.
const CALL_ENTRIES: usize = 3;

// Takes the places of a call's entries in the journal. Want of memory changes nothing.
pub(crate) fn reserve_entries<C, R>(journal: &mut Vec<Entry<C, R>>) -> Result<(), NoMemory>
    ensures items { journal.new.items ≡ journal.old.items }
    ensures room { OnOk result (vec_len journal.new + 3 ≤ vec_capacity journal.new) }
{
    journal.reserve(CALL_ENTRIES)?;
    Ok(())
}

// Enters the losses that a call met.
pub(crate) fn enter_marks<C, R>(journal: &mut Vec<Entry<C, R>>, marks: &[Mark])
    requires room { vec_len journal.old + length marks.now < vec_capacity journal.old }
    requires short { vec_len journal.old + length marks.now < 2 ^ 32 }
    ensures items { journal.new.items ≡ entered journal.old.items marks.now }
    ensures room { vec_len journal.new < vec_capacity journal.new }
{
    for mark in marks {
        let no = journal.len() as u32 + 1;
        journal.push_reserved(Entry {
            no,
            by: ConnId(0),
            what: What::Lost(mark.cf),
            reply: Reply::Shell(mark.lost.reply()),
        });
    }
}

/// What of a cell never changes. No value of it is made: contracts alone see it.
pub struct CellKey<C, R, L> {
    pub form: StrForm,
    pub callers: u8,
    pub limit: u32,
    pub words: Vectors<(Ask<C>, Reply<R>)>,
    pub links: Links<L>,
}

/// The fact that a cell's lock keeps.
pub struct CellFact<E, L> {
    of: PhantomData<(E, L)>,
}

impl<E: Engine, L: Link> Keeps for CellFact<E, L> {
    type Value = Inside<E, L>;

    type Key = CellKey<E::Cmd, E::Reply, L>;

    ghost key_of = { λ inside. record {
      form = inside.machine.form;
      callers = inside.seat.table.conns;
      limit = inside.limit;
      words = inside.seat.table;
      links = inside.machine.links;
    } };

    ghost stands = { λ key inside. IsCell L.calls L.downs L.faults E.meaning key inside.limit
        inside.machine inside.touched inside.journal.items inside.seat };
}
