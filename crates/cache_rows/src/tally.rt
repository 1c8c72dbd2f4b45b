//! What is counted of rows as they come and go, so that no command passes over all of them.
ghost use Rattle.std.specs.Prelude.{◌≡◌, ◌≤◌, [], is_none, if◌then◌else◌};
ghost use Rattle.cache_rows.specs.Counted.{CanAdd, CanLower, IsMoreOf};
ghost use Rattle.cache_rows.specs.Tallies.{tally_of, CanGrow, CanShrink};
ghost use Rattle.cache_rows.specs.Totals.{IsTotals};

use crate::counts::Counts;

/// How many rows there are and how many elements their data take; and the same of those that are
/// unchanged.
#[derive(Clone, Copy)]
pub(crate) struct Tally {
    pub rows: u32,
    pub elements: u64,
    pub unchanged: u32,
    pub reclaimable: u64,
}

/// A number where there is no castout class, and nothing where there is one.
pub(crate) fn unless_changed(class: Option<u32>, number: u32) -> u32
    ensures { result ≡ (if is_none class then number else 0) }
{
    match class {
        None => number,
        Some(_) => 0,
    }
}

impl Tally {
    /// Of no rows.
    pub(crate) fn new() -> Tally
        ensures { result ≡ record { rows = 0; elements = 0; unchanged = 0; reclaimable = 0 } }
    {
        Tally {
            rows: 0,
            elements: 0,
            unchanged: 0,
            reclaimable: 0,
        }
    }

    /// A row of this castout class comes, with data that take so many elements.
    pub(crate) fn add(&mut self, class: Option<u32>, elements: u32)
        requires room { CanGrow self.old }
        requires few { elements ≤ 16 }
        ensures { self.new ≡ tally_of class elements self.old }
    {
        self.rows += 1;
        self.elements += elements as u64;
        self.unchanged += unless_changed(class, 1);
        self.reclaimable += unless_changed(class, elements) as u64;
    }

    /// A row of this castout class goes, with data that take so many elements.
    pub(crate) fn subtract(&mut self, class: Option<u32>, elements: u32)
        requires { CanShrink class elements self.old }
        ensures { tally_of class elements self.new ≡ self.old }
    {
        self.rows -= 1;
        self.elements -= elements as u64;
        self.unchanged -= unless_changed(class, 1);
        self.reclaimable -= unless_changed(class, elements) as u64;
    }
}

/// The tally of rows, and how many there are of each class.
#[derive(Clone, Copy)]
pub(crate) struct Totals {
    pub tally: Tally,
    pub counts: Counts,
}

impl Totals {
    /// Of no rows.
    pub(crate) fn new() -> Totals
        ensures { IsTotals result [] }
    {
        Totals {
            tally: Tally::new(),
            counts: Counts::new(),
        }
    }

    /// A row of these classes comes, with data that take so many elements.
    pub(crate) fn add(&mut self, class: Option<u32>, stg: u32, elements: u32)
        requires room { CanGrow self.old.tally }
        requires below { CanAdd self.old.counts }
        requires few { elements ≤ 16 }
        ensures tally { self.new.tally ≡ tally_of class elements self.old.tally }
        ensures counts { IsMoreOf class stg self.old.counts self.new.counts }
    {
        self.tally.add(class, elements);
        self.counts.add(class, stg);
    }

    /// A row of these classes goes, with data that take so many elements.
    pub(crate) fn subtract(&mut self, class: Option<u32>, stg: u32, elements: u32)
        requires tally { CanShrink class elements self.old.tally }
        requires counts { CanLower class stg self.old.counts }
        ensures tally { tally_of class elements self.new.tally ≡ self.old.tally }
        ensures counts { IsMoreOf class stg self.new.counts self.old.counts }
    {
        self.tally.subtract(class, elements);
        self.counts.subtract(class, stg);
    }
}
