ghost use Rattle.std.specs.Prelude.{◌≡◌, ◌↔◌, ◌≤◌, Some, IsErr, OnOk, OnErr, IsTrue};
ghost use Rattle.cf_io.specs.Count.{IsListed, one_more};

use crate::link::{Down, Link};

/// A link that is down at exactly the calls whose numbers, from 1, stand in `fails`.
#[derive(Drop)]
pub struct ListLink {
    /// How many calls of `ask` there have been. The count stands still at `u64::MAX`.
    pub calls: u64,

    /// The numbers of the calls that are answered `Down`.
    pub fails: Vec<u64>,

    /// How many calls were answered `Down`. The count stands still at `u64::MAX`.
    pub faults: u64,
}

impl Link for ListLink {
    ghost calls = { λ link. Some link.calls };

    ghost downs = { λ link. Some link.fails.items };

    ghost faults = { λ link. link.faults };

    /// # Errors
    ///
    /// `Down` exactly where the call is listed.
    fn ask(&mut self) -> Result<(), Down>
        ensures down { IsErr result ↔ IsListed self.old.fails.items self.old.calls }
        ensures ok { OnOk result (self.new
            ≡ record self.old { calls = one_more self.old.calls }) }
        ensures err { OnErr result (self.new ≡ record self.old {
          calls = one_more self.old.calls;
          faults = one_more self.old.faults;
        }) }
        ensures faults { self.old.faults ≤ self.new.faults }
    {
        let listed = is_listed(&self.fails, self.calls);
        self.calls = self.calls.saturating_add(1);
        if listed {
            self.faults = self.faults.saturating_add(1);
            return Err(Down);
        }
        Ok(())
    }

    ghost tells_enough = { λ _. tt };
}

// Whether the call after so many is listed. None is at the end of the count.
fn is_listed(fails: &Vec<u64>, calls: u64) -> bool
    ensures { IsTrue result ↔ IsListed fails.now.items calls }
{
    match calls.checked_add(1) {
        Some(number) => fails.contains(&number),
        None => false,
    }
}
