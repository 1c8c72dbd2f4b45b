//! DUPLEX START and STOP: a second instance is made, and dropped.
ghost use Rattle.std.specs.Prelude.{◌≡◌};
ghost use Rattle.cf_types.specs.Forms.{IsCaller};
ghost use Rattle.engine_api.specs.Shell.{duplex_outcome, simplex_again};

use crate::commands::connect::facility_of;
use crate::places::units_of;
use crate::shell::{Shell, no_deeds};
use cf_types::{ConnId, ShellReply};
use engine_api::Deeds;

impl Shell {
    /// DUPLEX START (IXLREBLD STARTDUPLEX): a second instance with the same content is made in the
    /// first place that is large enough.
    pub(crate) fn start_duplex(&mut self, by: ConnId) -> (ShellReply, Deeds)
        requires { IsCaller by }
        ensures form { self.new.form ≡ self.old.form }
        ensures acts { record { reply = result.0; shell = self.new.shell; deeds = result.1 }
            ≡ duplex_outcome self.old.form self.old.shell by }
        ensures room { self.new.room ≡ self.old.room }
    {
        let cf = facility_of(self.place(by, units_of(self.caps)));
        self.secondary = Some(cf);
        (
            ShellReply::OkAt { cf },
            Deeds {
                second: Some(cf),
                ..no_deeds()
            },
        )
    }

    /// DUPLEX STOP (IXLREBLD STOPDUPLEX): the secondary is dropped, where one stands.
    pub(crate) fn stop_duplex(&mut self) -> (ShellReply, Deeds)
        ensures form { self.new.form ≡ self.old.form }
        ensures acts { record { reply = result.0; shell = self.new.shell; deeds = result.1 }
            ≡ simplex_again self.old.shell.instances.secondary self.old.shell }
        ensures room { self.new.room ≡ self.old.room }
    {
        match self.secondary {
            None => (ShellReply::OkNone, no_deeds()),
            Some(cf) => {
                self.secondary = None;
                (
                    ShellReply::OkAt { cf },
                    Deeds {
                        drop_at: Some(cf),
                        ..no_deeds()
                    },
                )
            }
        }
    }
}
