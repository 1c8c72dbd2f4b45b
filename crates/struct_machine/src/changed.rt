ghost use Rattle.std.specs.Prelude.{◌≡◌, ◌||◌, [], false, true};
ghost use Rattle.struct_machine.specs.Changes.{may_change_bits};

use crate::marks::{Mark, Marks};
use cf_types::{BitChange, Effects};
use engine_api::Deeds;
use std::alloc::Global;
use std::marker::Model;

/// What marks a call made, and which vector bits marks and call may have changed. Most calls name
/// each bit that they changed; one that puts a rebuild's new instance in the primary's place or ends
/// all instances may have changed any, and so may a mark that ends all instances.
#[derive(Drop)]
pub struct Changed {
    pub(crate) effects: Effects,
    pub(crate) all: bool,
    pub(crate) marks: Marks,
}

impl Model for Changed {
    ghost use Rattle.struct_machine.specs.Changes.{ChangeList};

    ghost Value = { ChangeList };

    ghost view = { λ c. record {
      all = c.all;
      bits = c.effects.bits.items;
      marks = c.marks;
    } };
}

impl Changed {
    /// No bit.
    pub fn none(alloc: Global) -> Changed
        ensures { result ≡ record { all = false; bits = []; marks = [] } }
    {
        Changed {
            effects: Effects::new(alloc),
            all: false,
            marks: Marks::none(),
        }
    }

    /// Any bit may have changed.
    pub fn is_all(&self) -> bool
        ensures { result ≡ self.now.all }
    {
        self.all
    }

    /// What links told before the call was done, in order: two marks at most.
    pub fn marks(&self) -> &[Mark]
        ensures { result.now ≡ self.now.marks }
    {
        self.marks.items()
    }

    /// The bits that are named, in no order that matters.
    pub fn bits(&self) -> &[BitChange]
        ensures { result.now ≡ self.now.bits }
    {
        self.effects.bits.items()
    }

    // No bit.
    pub(crate) fn clear(&mut self)
        ensures { self.new ≡ record { all = false; bits = []; marks = [] } }
    {
        self.effects.clear();
        self.all = false;
        self.marks.clear();
    }

    // What a command did beside the bits that are named. Where it may have changed others, that is
    // any bit: the bits of what ends aren't looked up one by one.
    pub(crate) fn note(&mut self, deeds: Deeds)
        ensures { self.new ≡ record self.old { all = may_change_bits deeds } }
    {
        self.all = deeds.switch || deeds.drop_all;
    }
}
