ghost use Rattle.std.specs.Prelude.{◌≡◌, [], min};
ghost use Rattle.cf_types.specs.Batch.{letter_room};

use crate::batches::Batch;
use crate::events::Letter;
use crate::numbers::ConnId;
use std::alloc::Global;

/// A bit of a connector's vector, counted from 0, and its new value.
#[derive(Clone, Copy, PartialEq, Eq)]
pub struct BitChange {
    pub conn: ConnId,
    pub index: u32,
    pub bit: bool,
}

/// What a command brings beside its reply: the vector bits that changed, and letters to connectors.
#[derive(Drop)]
pub struct Effects {
    pub bits: Batch<BitChange>,
    pub mail: Batch<Letter>,
}

impl Effects {
    /// Nothing, with room for nothing.
    pub fn new(alloc: Global) -> Effects
        ensures bits { result.bits.items ≡ [] }
        ensures mail { result.mail.items ≡ [] }
    {
        Effects {
            bits: Batch::new(alloc),
            mail: Batch::new(alloc),
        }
    }

    /// How many letters there is room for, up to `u32::MAX`.
    pub fn mail_room(&self) -> u32
        ensures { result ≡ letter_room self.now.mail }
    {
        self.mail.room().min(u32::MAX as usize) as u32
    }

    /// Ends the bits and the letters; the room stays.
    pub fn clear(&mut self)
        ensures bits { self.new.bits.items ≡ [] }
        ensures mail { self.new.mail.items ≡ [] }
    {
        self.bits.clear();
        self.mail.clear();
    }
}
