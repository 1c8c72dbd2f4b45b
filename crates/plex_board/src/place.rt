//! A caller's place at a structure.
ghost use Rattle.std.specs.Prelude.{◌≡◌, ◌≤◌, []};
ghost use Rattle.plex_board.specs.Passes.{pass_shown};
ghost use Rattle.plex_script.specs.Heard.{is_linked};

use crate::any_pass::AnyPass;
use std::marker::Model;

/// A caller's pass to a structure, with whether the caller is active there by the replies to its
/// own calls. Contracts see the pass.
#[derive(Drop)]
pub(crate) struct Place {
    pub(crate) pass: AnyPass,
    pub(crate) linked: bool,
}

impl Model for Place {
    ghost use Rattle.std.specs.Prelude.{◌≡◌};
    ghost use Rattle.plex_board.specs.Passes.{PassShown, pass_shown};
    ghost use Rattle.plex_script.specs.Heard.{is_linked};

    ghost Value = { PassShown };

    ghost view = { λ place. pass_shown place.pass };

    ghost invariant = { λ place. place.linked ≡ is_linked (pass_shown place.pass).calls };
}

impl Place {
    /// The place of a caller that hasn't called yet.
    pub(crate) fn new(pass: AnyPass) -> Place
        requires { (pass_shown pass).calls ≡ [] }
        ensures { result ≡ pass_shown pass }
    {
        Place {
            pass,
            linked: false,
        }
    }

    /// Whether the caller is active.
    pub(crate) fn linked(&self) -> bool
        ensures { result ≡ is_linked self.now.calls }
    {
        self.linked
    }

    /// What the caller has seen complete, it knows.
    pub(crate) fn ordered(&self)
        ensures { self.now.sure ≤ self.now.known }
    {
        let _sure = self.pass.sure();
    }

    /// The pass.
    pub(crate) fn into_pass(self) -> AnyPass
        ensures { pass_shown result ≡ self }
    {
        let Place { pass, .. } = self;
        pass
    }
}
