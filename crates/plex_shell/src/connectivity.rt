//! Which facilities a connector can reach.
ghost use Rattle.std.specs.Prelude.{◌≡◌, ◌+◌, [], replicate, slice_set, slice_get, unwrap_or, length};
ghost use Rattle.cf_types.specs.Forms.{IsFacility, IsConnector};
ghost use Rattle.cf_types.specs.ConnSets.{is_member, with_member, without_member};
ghost use Rattle.cf_types.specs.declared.limits.TheConstants.{FACILITIES};

use cf_types::limits::FACILITIES;
use cf_types::{CfId, ConnId, ConnSet};
use std::marker::Model;

/// How many places there are: one for each facility by its number, from 0, which is none's.
pub(crate) const PLACES: usize = FACILITIES as usize + 1;

/// For each facility, the connectors that can't reach it. Contracts see their list.
#[derive(Drop)]
pub(crate) struct Connectivity {
    severed: [ConnSet; PLACES],
}

impl Model for Connectivity {
    ghost use Rattle.std.specs.Prelude.{◌≡◌, ◌+◌, List, length};
    ghost use Rattle.cf_types.specs.declared.limits.TheConstants.{FACILITIES};
    ghost use Rattle.cf_types.specs.declared.numbers.ConnId.{ConnId};

    ghost Value = { List (List ConnId) };

    ghost view = { λ c. c.severed };
}

impl Connectivity {
    /// Everybody reaches every facility.
    pub(crate) fn whole() -> Connectivity
        ensures { result ≡ replicate (FACILITIES + 1) [] }
    {
        Connectivity {
            severed: [ConnSet::none(); PLACES],
        }
    }

    /// The connectors that can't reach a facility.
    pub(crate) fn severed_from(&self, cf: CfId) -> ConnSet
        ensures { result ≡ unwrap_or (slice_get self.now cf.0) [] }
    {
        match self.severed.get(usize::from(cf.0)) {
            Some(conns) => *conns,
            None => ConnSet::none(),
        }
    }

    /// A connector can't reach a facility any more.
    pub(crate) fn sever(&mut self, conn: ConnId, cf: CfId)
        requires connector { IsConnector conn }
        requires facility { IsFacility cf }
        ensures { self.new ≡ slice_set self.old cf.0
            (with_member conn (unwrap_or (slice_get self.old cf.0) [])) }
    {
        let conns = self.severed_from(cf).with(conn);
        self.severed[usize::from(cf.0)] = conns;
    }

    /// A connector can reach a facility again.
    pub(crate) fn restore(&mut self, conn: ConnId, cf: CfId)
        requires connector { IsConnector conn }
        requires facility { IsFacility cf }
        ensures { self.new ≡ slice_set self.old cf.0
            (without_member conn (unwrap_or (slice_get self.old cf.0) [])) }
    {
        let conns = self.severed_from(cf).without(conn);
        self.severed[usize::from(cf.0)] = conns;
    }
}
