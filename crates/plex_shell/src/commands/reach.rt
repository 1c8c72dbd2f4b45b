//! LOSECONN and RESTORECONN: what a connector can reach.
ghost use Rattle.std.specs.Prelude.{◌≡◌, ◌≤◌, ◌+◌};
ghost use Rattle.cf_types.specs.Forms.{IsConnector, IsFacility};
ghost use Rattle.engine_api.specs.Shell.{is_severed, lose_outcome, restore_outcome};

use crate::shell::{Shell, no_deeds};
use cf_types::{CfId, ConnId, Event, Letter, ShellReply};
use engine_api::Deeds;

impl Shell {
    /// LOSECONN: the connector can't reach the facility any more. Where that is new and it is
    /// active, it is told.
    pub(crate) fn lose_connectivity(&mut self, conn: ConnId, cf: CfId) -> (ShellReply, Deeds)
        requires connector { IsConnector conn }
        requires facility { IsFacility cf }
        requires room { 1 ≤ self.old.room }
        ensures form { self.new.form ≡ self.old.form }
        ensures acts { record { reply = result.0; shell = self.new.shell; deeds = result.1 }
            ≡ lose_outcome self.old.shell conn cf }
        ensures room { self.old.room ≤ self.new.room + 1 }
    {
        let is_new = self.conns.is_active(conn) && !self.reach.severed_from(cf).has(conn);
        self.reach.sever(conn, cf);
        if is_new {
            self.mail.post(Letter {
                to: conn,
                event: Event::LostConn { cf },
            });
        }
        (ShellReply::Ok, no_deeds())
    }

    /// RESTORECONN: the connector can reach the facility again.
    pub(crate) fn restore_connectivity(&mut self, conn: ConnId, cf: CfId) -> (ShellReply, Deeds)
        requires connector { IsConnector conn }
        requires facility { IsFacility cf }
        ensures form { self.new.form ≡ self.old.form }
        ensures acts { record { reply = result.0; shell = self.new.shell; deeds = result.1 }
            ≡ restore_outcome self.old.shell conn cf }
        ensures room { self.new.room ≡ self.old.room }
    {
        self.reach.restore(conn, cf);
        (ShellReply::Ok, no_deeds())
    }
}
