//! Which facilities are varied off.
ghost use Rattle.std.specs.Prelude.{◌≡◌, ◌+◌, false, replicate, slice_set, slice_get, unwrap_or};
ghost use Rattle.cf_types.specs.Forms.{IsFacility};
ghost use Rattle.cf_types.specs.declared.limits.TheConstants.{FACILITIES};

use crate::connectivity::PLACES;
use cf_types::CfId;
use std::marker::Model;

/// For each facility, whether it is varied off for the structure. Contracts see their list.
#[derive(Drop)]
pub(crate) struct VariedOff {
    places: [bool; PLACES],
}

impl Model for VariedOff {
    ghost use Rattle.std.specs.Prelude.{Bool, List};

    ghost Value = { List Bool };

    ghost view = { λ v. v.places };
}

impl VariedOff {
    /// Every facility is on.
    pub(crate) fn none() -> VariedOff
        ensures { result ≡ replicate (FACILITIES + 1) false }
    {
        VariedOff {
            places: [false; PLACES],
        }
    }

    /// Whether a facility is off.
    pub(crate) fn has(&self, cf: CfId) -> bool
        ensures { result ≡ unwrap_or (slice_get self.now cf.0) false }
    {
        match self.places.get(usize::from(cf.0)) {
            Some(off) => *off,
            None => false,
        }
    }

    /// A facility is varied off, or on again.
    pub(crate) fn set(&mut self, cf: CfId, off: bool)
        requires { IsFacility cf }
        ensures { self.new ≡ slice_set self.old cf.0 off }
    {
        self.places[usize::from(cf.0)] = off;
    }
}
