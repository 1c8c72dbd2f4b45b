ghost use Rattle.std.specs.Prelude.{◌≡◌, ◌<◌, ◌≤◌, length, map};
ghost use Rattle.cf_types.specs.declared.limits.TheConstants.{SET_NUMBERS};
ghost use Rattle.cf_types.specs.Connections.{departed_state, excused_state};

use cf_types::{ConnId, ConnSet, ConnState};

/// The state of a departed connection, by whom its departure awaits. One that awaits nobody is
/// finished.
pub fn departed_state(keep: bool, awaits: ConnSet) -> Option<ConnState>
    ensures { result ≡ departed_state keep awaits }
{
    if awaits.len() > 0 {
        Some(ConnState::Leaving { keep, awaits })
    } else if keep {
        Some(ConnState::Failed)
    } else {
        None
    }
}

/// The state of a connection once its departure awaits this connector no more.
pub fn excused_state(conn: ConnId, state: Option<ConnState>) -> Option<ConnState>
    requires { conn.0 < SET_NUMBERS }
    ensures { result ≡ excused_state conn state }
{
    if let Some(ConnState::Leaving { keep, awaits }) = &state {
        departed_state(*keep, awaits.without(conn))
    } else {
        state
    }
}

/// No departure awaits this connector any more.
pub fn excuse(conn: ConnId, states: &mut [Option<ConnState>])
    requires { conn.0 < SET_NUMBERS }
    ensures { states.new ≡ map (excused_state conn) states.old }
{
    for state in states.iter_mut() {
        *state = excused_state(conn, *state);
    }
}
