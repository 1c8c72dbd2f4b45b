ghost use Rattle.std.specs.Prelude.{◌≡◌, IsTrue};
ghost use Rattle.cf_types.specs.Connections.{is_failed};
ghost use Rattle.engine_api.specs.Shell.{force_connection, force_structure};

use crate::rebuild_causes::is_copy;
use crate::shell::Shell;
use cf_types::{ConnId, ShellReply};
use engine_api::Deeds;

impl Shell {
    /// FORCECONN: a failed connection is gone.
    pub(crate) fn force_connection(&mut self, conn: ConnId) -> (ShellReply, Deeds)
        requires { IsTrue (is_failed self.old.shell.conns conn) }
        ensures form { self.new.form ≡ self.old.form }
        ensures acts { record { reply = result.0; shell = self.new.shell; deeds = result.1 }
            ≡ force_connection self.old.form self.old.shell conn }
        ensures room { self.new.room ≡ self.old.room }
    {
        let restart = match &self.rebuild {
            Some(rebuild) => is_copy(rebuild.stage),
            None => false,
        };
        self.conns.force(conn);
        self.empty_rebuild();
        let deeds = self.end_if_gone();
        (ShellReply::Ok, Deeds { restart, ..deeds })
    }

    /// FORCESTR: the structure is deallocated.
    pub(crate) fn force_structure(&mut self) -> (ShellReply, Deeds)
        ensures form { self.new.form ≡ self.old.form }
        ensures acts { record { reply = result.0; shell = self.new.shell; deeds = result.1 }
            ≡ force_structure self.old.form self.old.shell }
        ensures room { self.new.room ≡ self.old.room }
    {
        (ShellReply::Ok, self.end())
    }
}
