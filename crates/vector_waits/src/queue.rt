ghost use Rattle.std.specs.Prelude.{◌≡◌, ◌+◌, ◌++◌, ◌∷◌, [], OnOk, OnErr, map};
ghost use Rattle.struct_machine.specs.StructureView.{stands_at};
ghost use Rattle.vector_waits.specs.Waits.{before_block, behind_block, untold, IsQueue};

use crate::asking::{ask_before, ask_behind, forget};
use crate::wait::Wait;
use cf_types::{ConnId, NoMemory};
use engine_api::Engine;
use std::alloc::Global;
use std::marker::Model;
use struct_machine::Machine;
use struct_machine::links::Link;

/// The tests that one caller shows of a structure, in their order.
#[derive(Drop)]
pub struct Queue {
    conn: ConnId,
    waits: Vec<Wait>,
    next: usize,
}

impl Model for Queue {
    ghost use Rattle.vector_waits.specs.Waits.{QueueView};

    ghost Value = { QueueView };

    ghost view = { λ q. record { conn = q.conn; waits = q.waits.items; next = q.next } };
}

impl Queue {
    /// A caller's, without tests yet.
    pub fn new(alloc: Global, conn: ConnId) -> Queue
        ensures { result ≡ record { conn = conn; waits = []; next = 0 } }
    {
        Queue {
            conn,
            waits: Vec::new(alloc),
            next: 0,
        }
    }

    /// One test more. Want of memory leaves the queue as it was.
    pub fn push(&mut self, wait: Wait) -> Result<(), NoMemory>
        ensures ok { OnOk result (self.new
            ≡ record self.old { waits = self.old.waits ++ wait ∷ [] }) }
        ensures err { OnErr result (self.new ≡ self.old) }
    {
        self.waits.push(wait)?;
        Ok(())
    }

    /// The tests, each with what the history tells of it.
    pub fn waits(&self) -> &[Wait]
        ensures { result.now ≡ self.now.waits }
    {
        self.waits.as_slice()
    }

    /// The history begins anew.
    pub fn begin(&mut self)
        ensures { self.new ≡ record self.old { waits = map untold self.old.waits; next = 0 } }
    {
        forget(self.waits.as_mut_slice());
        self.next = 0;
    }

    /// The machine stands before the block of a call of this number.
    pub fn ask_before<E: Engine, L: Link>(&mut self, machine: &Machine<E, L>, number: usize)
        requires { IsQueue number self.old }
        ensures { self.new ≡ record self.old {
          waits = map
              (before_block number (stands_at E.meaning machine.now.machine self.old.conn))
              self.old.waits;
        } }
    {
        ask_before(
            machine,
            self.conn,
            self.waits.as_mut_slice(),
            self.next,
            number,
        );
    }

    /// The machine stands behind that call.
    pub fn ask_behind<E: Engine, L: Link>(&mut self, machine: &Machine<E, L>, number: usize)
        requires { IsQueue number self.old }
        ensures asked { self.new ≡ record self.old {
          waits = map
              (behind_block number (stands_at E.meaning machine.now.machine self.old.conn))
              self.old.waits;
          next = self.new.next;
        } }
        ensures queue { IsQueue (number + 1) self.new }
    {
        self.next = ask_behind(
            machine,
            self.conn,
            self.waits.as_mut_slice(),
            self.next,
            number,
        );
    }
}
