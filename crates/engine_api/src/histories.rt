ghost use Rattle.std.specs.Prelude.{◌≡◌};

use crate::asks::{Reply, What};
use cf_types::ConnId;
use std::marker::Model;

/// An entry of a journal: its number, from 1; who called (0 for the operator, and where a facility
/// was lost); what it tells; and the reply.
#[derive(Drop)]
pub struct Entry<C, R> {
    pub no: u32,
    pub by: ConnId,
    pub what: What<C>,
    pub reply: Reply<R>,
}

/// The entries of a structure's journal, in order.
#[derive(Drop)]
pub struct History<C, R> {
    entries: Vec<Entry<C, R>>,
}

impl<C, R> Model for History<C, R> {
    ghost use Rattle.std.specs.Prelude.{List};
    ghost use Rattle.engine_api.specs.declared.histories.Entry.{Entry};

    ghost Value = { List (Entry C R) };

    ghost view = { λ h. h.entries.items };
}

impl<C, R> History<C, R> {
    /// The history of these entries.
    pub fn from_vec(entries: Vec<Entry<C, R>>) -> History<C, R>
        ensures { result ≡ entries.items }
    {
        History { entries }
    }

    /// The entries.
    pub fn entries(&self) -> &[Entry<C, R>]
        ensures { result.now ≡ self.now }
    {
        self.entries.as_slice()
    }

    /// The entries as a `Vec`.
    pub fn into_vec(self) -> Vec<Entry<C, R>>
        ensures { result.items ≡ self }
    {
        let History { entries } = self;
        entries
    }
}
