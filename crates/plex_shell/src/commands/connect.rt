ghost use Rattle.std.specs.Prelude.{◌≡◌, ◌≤◌, ◌+◌, None};
ghost use Rattle.cf_types.specs.Forms.{IsConnector};
ghost use Rattle.cf_types.specs.Connections.{state_of};
ghost use Rattle.engine_api.specs.Shell.{if_connected, connect_outcome, facility_of};
ghost use Rattle.plex_shell.specs.declared.shell.TheConstants.{ACT_LETTERS};

use crate::shell::{Shell, no_deeds};
use cf_types::{CfId, ConnId, Event, ShellReply};
use engine_api::Deeds;

impl Shell {
    /// CONNECT: the caller becomes active, or takes its failed connection up again, and the other
    /// active connectors are told. Where no instance stands, the primary is made.
    pub(crate) fn connect(&mut self, by: ConnId, keep: bool) -> (ShellReply, Deeds)
        requires connector { IsConnector by }
        requires accepted { if_connected (state_of self.old.shell.conns by) ≡ None }
        requires room { ACT_LETTERS ≤ self.old.room }
        ensures form { self.new.form ≡ self.old.form }
        ensures acts { record { reply = result.0; shell = self.new.shell; deeds = result.1 }
            ≡ connect_outcome self.old.form self.old.shell by keep }
        ensures room { self.old.room ≤ self.new.room + ACT_LETTERS }
    {
        let make = self.made_at(by);
        let others = self.conns.active().without(by);
        let again = self.conns.connect(by, keep);
        self.mail.tell(others, Event::NewConn { conn: by });
        if make.is_some() {
            self.primary = make;
        }
        let cf = facility_of(self.primary);
        let reply = if again {
            ShellReply::Reconnected { cf }
        } else {
            ShellReply::OkNew { cf }
        };
        let back = if again { Some(by) } else { None };
        (
            reply,
            Deeds {
                back,
                make,
                ..no_deeds()
            },
        )
    }
}

/// The facility of an instance.
pub(crate) fn facility_of(at: Option<CfId>) -> CfId
    ensures { result ≡ facility_of at }
{
    at.unwrap_or(CfId(0))
}
