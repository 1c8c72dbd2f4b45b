ghost use Rattle.std.specs.Prelude.{◌≡◌, ◌↔◌, ◌<◌, ◌≤◌, ◌||◌, IsTrue};
ghost use Rattle.cf_types.specs.declared.limits.TheConstants.{CONNECTORS};
ghost use Rattle.cf_types.specs.Forms.{IsConnector};
ghost use Rattle.cf_types.specs.Connections.{no_connections, state_of, is_active, is_failed, is_gone, actives, defined_count, with_connect, with_departure, with_answer, with_forced, AreConnections};

use crate::departures::{departed_state, excuse, excused_state};
use cf_types::limits::CALLERS;
use cf_types::{ConnId, ConnSet, ConnState};
use std::marker::Model;

/// How many connectors a structure may have, the operator counted among them.
const PLACES: usize = CALLERS as usize;

/// The connections of a structure. Contracts see the list of their states by the connectors'
/// numbers, from 0, which is the operator's and stays empty.
#[derive(Drop)]
pub struct Conns {
    states: [Option<ConnState>; PLACES],
}

impl Model for Conns {
    ghost use Rattle.cf_types.specs.Connections.{Connections, AreConnections};

    ghost Value = { Connections };

    ghost view = { λ c. c.states };

    ghost invariant = { λ c. AreConnections c.states };
}

impl Conns {
    /// Nobody is connected.
    pub fn new() -> Conns
        ensures { result ≡ no_connections }
    {
        Conns {
            states: [None; PLACES],
        }
    }

    /// The state of a connector's connection, none where it has none.
    pub fn state(&self, conn: ConnId) -> Option<ConnState>
        ensures state { result ≡ state_of self.now conn }
        ensures valid { AreConnections self.now }
    {
        self.states.get(usize::from(conn.0)).copied().flatten()
    }

    /// Whether a connector is active.
    pub fn is_active(&self, conn: ConnId) -> bool
        ensures { result ≡ is_active self.now conn }
    {
        matches!(self.state(conn), Some(ConnState::Active { .. }))
    }

    /// A connector becomes active (IXLCONN); with `keep` its connection stays when it fails. True
    /// exactly where its connection had failed and is taken up again.
    pub fn connect(&mut self, conn: ConnId, keep: bool) -> bool
        requires connector { IsConnector conn }
        requires idle { IsTrue (is_gone self.old conn || is_failed self.old conn) }
        ensures back { result ≡ is_failed self.old conn }
        ensures state { self.new ≡ with_connect conn keep self.old }
    {
        let state = &mut self.states[usize::from(conn.0)];
        let back = state.is_some();
        *state = Some(ConnState::Active { keep });
        back
    }

    /// An active connector departs (IXLDISC, or its failure). It is leaving until each other active
    /// one has answered or departed, and then failed with `keep`, else gone. Others that were
    /// leaving finish where they awaited it alone.
    pub fn depart(&mut self, conn: ConnId, keep: bool)
        requires { IsTrue (is_active self.old conn) }
        ensures { self.new ≡ with_departure conn keep self.old }
    {
        let awaits = self.active().without(conn);
        excuse(conn, &mut self.states);
        self.states[usize::from(conn.0)] = departed_state(keep, awaits);
    }

    /// A connector has answered the departure of another (IXLEERSP). Where that one isn't leaving,
    /// or doesn't await the answer, nothing changes.
    pub fn answered(&mut self, by: ConnId, about: ConnId)
        requires by { by.0 ≤ CONNECTORS }
        requires about { about.0 ≤ CONNECTORS }
        ensures { self.new ≡ with_answer by about self.old }
    {
        let state = &mut self.states[usize::from(about.0)];
        *state = excused_state(by, *state);
    }

    /// A failed connection ends (IXLFORCE).
    pub fn force(&mut self, conn: ConnId)
        requires { IsTrue (is_failed self.old conn) }
        ensures { self.new ≡ with_forced conn self.old }
    {
        self.states[usize::from(conn.0)] = None;
    }

    /// The active connectors.
    pub fn active(&self) -> ConnSet
        ensures { result ≡ actives self.now }
    {
        let mut set = ConnSet::none();
        for number in 0..PLACES as u8 {
            let conn = ConnId(number);
            if self.is_active(conn) {
                set = set.with(conn);
            }
        }
        set
    }

    /// How many connections are defined: active, leaving or failed.
    pub fn defined(&self) -> u32
        ensures { result ≡ defined_count self.now }
    {
        self.states.iter().filter(|state| state.is_some()).count() as u32
    }
}
