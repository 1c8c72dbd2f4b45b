//! A caller's desk.
ghost use Rattle.std.specs.Prelude.{◌≡◌, ◌<◌, ◌≤◌, length};
ghost use Rattle.plex_script.specs.Heard.{is_linked};
ghost use Rattle.plex_board.specs.Desks.{pass_at};

use crate::place::Place;
use plex_script::types::{ConnId, StrNo};
use std::marker::Model;

/// What a caller has to use the structures of a board: a place at each. It may go to another
/// thread.
pub struct Desk {
    pub(crate) owner: ConnId,
    pub(crate) places: Vec<Place>,
}

impl Model for Desk {
    ghost use Rattle.std.specs.Prelude.{◌≤◌};
    ghost use Rattle.std.specs.Vec.{vec_capacity};
    ghost use Rattle.plex_script.specs.CfTypes.declared.limits.TheConstants.{STRUCTURES};
    ghost use Rattle.plex_board.specs.Desks.{DeskShown};

    ghost Value = { DeskShown };

    ghost view = { λ desk. record { owner = desk.owner; passes = desk.places.items } };

    // a place at each structure that a board may have
    ghost invariant = { λ desk. STRUCTURES ≤ vec_capacity desk.places };
}

impl Drop for Desk {
    fn drop(self) {
        let Desk {
            owner: _,
            places: _,
        } = self;
    }
}

impl Desk {
    /// Whose desk it is.
    pub fn owner(&self) -> ConnId
        ensures { result ≡ self.now.owner }
    {
        self.owner
    }

    /// Whether its caller is active at a structure, by the replies to its own calls.
    pub fn linked(&self, on: StrNo) -> bool
        requires { on.0 < length self.now.passes }
        ensures { result ≡ is_linked (pass_at self.now on).calls }
    {
        self.places[usize::from(on.0)].linked()
    }

    /// What its caller has seen complete of a structure, it knows.
    pub fn ordered(&self, on: StrNo)
        requires { on.0 < length self.now.passes }
        ensures { (pass_at self.now on).sure ≤ (pass_at self.now on).known }
    {
        self.places[usize::from(on.0)].ordered();
    }

    /// The places.
    pub(crate) fn into_places(self) -> Vec<Place>
        ensures { result.items ≡ self.passes }
    {
        let Desk { owner: _, places } = self;
        places
    }
}
