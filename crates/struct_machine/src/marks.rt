//! What links told before a call was done.
ghost use Rattle.std.specs.Prelude.{◌≡◌, ◌<◌, ◌++◌, ◌∷◌, [], length};
ghost use Rattle.struct_machine.specs.Marks.{is_failure};
ghost use Rattle.struct_machine.specs.declared.marks.TheConstants.{MARKS};

use cf_types::CfId;
use plex_shell::LostAs;
use std::marker::Model;

/// The most marks that a call makes.
pub const MARKS: usize = 2;

/// What a link told before a call was done: the facility whose instance is lost, and what that made
/// of the structure.
#[derive(Clone, Copy)]
pub struct Mark {
    pub cf: CfId,
    pub lost: LostAs,
}

/// The marks of a call, in order.
#[derive(Drop)]
pub(crate) struct Marks {
    places: [Mark; MARKS],
    // of which the first so many are marks
    count: usize,
}

impl Model for Marks {
    ghost use Rattle.std.specs.Prelude.{◌≤◌, List, take};
    ghost use Rattle.struct_machine.specs.declared.marks.Mark.{Mark};
    ghost use Rattle.struct_machine.specs.declared.marks.TheConstants.{MARKS};

    ghost Value = { List Mark };

    ghost view = { λ m. take m.count m.places };

    ghost invariant = { λ m. m.count ≤ MARKS };
}

const NO_MARK: Mark = Mark {
    cf: CfId(0),
    lost: LostAs::FailedNow,
};

impl Marks {
    /// None.
    pub(crate) fn none() -> Marks
        ensures { result ≡ [] }
    {
        Marks {
            places: [NO_MARK; MARKS],
            count: 0,
        }
    }

    /// All of them.
    pub(crate) fn items(&self) -> &[Mark]
        ensures { result.now ≡ self.now }
    {
        &self.places[..self.count]
    }

    /// None is left.
    pub(crate) fn clear(&mut self)
        ensures { self.new ≡ [] }
    {
        self.count = 0;
    }

    /// One more.
    pub(crate) fn push(&mut self, cf: CfId, lost: LostAs)
        requires { length self.old < MARKS }
        ensures { self.new ≡ self.old ++ record { cf = cf; lost = lost } ∷ [] }
    {
        self.places[self.count] = Mark { cf, lost };
        self.count += 1;
    }
}

/// The structure failed.
pub(crate) fn is_failure(lost: LostAs) -> bool
    ensures { result ≡ is_failure lost }
{
    match lost {
        LostAs::FailedNow => true,
        _ => false,
    }
}
