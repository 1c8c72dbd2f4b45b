//! VARY, lost facilities, and what becomes of a structure that loses an instance.
ghost use Rattle.std.specs.Prelude.{◌≡◌, ◌≤◌, ◌+◌, true};
ghost use Rattle.cf_types.specs.Forms.{IsFacility};
ghost use Rattle.engine_api.specs.Shell.{vary_outcome, mark_outcome, loss_outcome, primary_loss, fresh_loss, simplex_outcome, failed_outcome, stands_at};
ghost use Rattle.plex_shell.specs.Losses.{reply_as, is_loss};
ghost use Rattle.plex_shell.specs.declared.shell.TheConstants.{ACT_LETTERS};

use crate::commands::connect::facility_of;
use crate::lost_as::LostAs;
use crate::places::is_at;
use crate::shell::{Shell, no_deeds};
use cf_types::{CfId, Event, ShellReply};
use engine_api::Deeds;

impl Shell {
    /// VARY of a facility: it is taken from the structure, with what stands there, or given back.
    pub(crate) fn vary(&mut self, cf: CfId, off: bool) -> (ShellReply, Deeds)
        requires facility { IsFacility cf }
        requires room { ACT_LETTERS ≤ self.old.room }
        ensures form { self.new.form ≡ self.old.form }
        ensures acts { record { reply = result.0; shell = self.new.shell; deeds = result.1 }
            ≡ vary_outcome self.old.form cf off self.old.shell }
        ensures room { self.old.room ≤ self.new.room + ACT_LETTERS }
    {
        self.off.set(cf, off);
        if off {
            self.lose(cf)
        } else {
            (ShellReply::Ok, no_deeds())
        }
    }

    /// A link has told that what stands in a facility is lost, for which room for `ACT_LETTERS`
    /// letters was taken. Of two instances the other is left; a rebuild that loses its new instance
    /// stops; and without any instance the structure fails, and the active connectors are told. The
    /// call that comes next is told which facility that was.
    pub fn lost(&mut self, cf: CfId) -> LostAs
        requires facility { IsFacility cf }
        requires there { stands_at self.old.shell cf ≡ true }
        requires room { ACT_LETTERS ≤ self.old.room }
        ensures form { self.new.form ≡ self.old.form }
        ensures shell { self.new.shell ≡ (mark_outcome self.old.form cf self.old.shell).shell }
        ensures told { reply_as result ≡ (mark_outcome self.old.form cf self.old.shell).reply }
        ensures room { self.old.room ≤ self.new.room + ACT_LETTERS }
    {
        let (reply, _) = self.lose(cf);
        self.lost = if self.failed { Some(cf) } else { None };
        loss_told(reply)
    }

    // What stands in a facility is lost.
    fn lose(&mut self, cf: CfId) -> (ShellReply, Deeds)
        requires facility { IsFacility cf }
        requires room { ACT_LETTERS ≤ self.old.room }
        ensures form { self.new.form ≡ self.old.form }
        ensures acts { record { reply = result.0; shell = self.new.shell; deeds = result.1 }
            ≡ loss_outcome self.old.form cf self.old.shell }
        ensures room { self.old.room ≤ self.new.room + ACT_LETTERS }
    {
        if is_at(cf, self.primary) {
            self.lose_primary(cf)
        } else if is_at(cf, self.secondary) {
            self.stay_simplex(cf, facility_of(self.primary))
        } else {
            self.lose_fresh(cf)
        }
    }

    // The primary is lost: the secondary takes its place, where one stands.
    fn lose_primary(&mut self, cf: CfId) -> (ShellReply, Deeds)
        requires { 1 ≤ self.old.room }
        ensures form { self.new.form ≡ self.old.form }
        ensures acts { record { reply = result.0; shell = self.new.shell; deeds = result.1 }
            ≡ primary_loss self.old.form cf self.old.shell.instances.secondary self.old.shell }
        ensures room { self.old.room ≤ self.new.room + 1 }
    {
        match self.secondary {
            None => self.fail(),
            Some(other) => self.stay_simplex(cf, other),
        }
    }

    // One of two instances is lost, and the other is the only one.
    fn stay_simplex(&mut self, lost: CfId, left: CfId) -> (ShellReply, Deeds)
        ensures form { self.new.form ≡ self.old.form }
        ensures acts { record { reply = result.0; shell = self.new.shell; deeds = result.1 }
            ≡ simplex_outcome lost left self.old.shell }
        ensures room { self.new.room ≡ self.old.room }
    {
        self.primary = Some(left);
        self.secondary = None;
        (
            ShellReply::Simplex { cf: left },
            Deeds {
                drop_at: Some(lost),
                ..no_deeds()
            },
        )
    }

    // The last instance is lost: the structure fails, a rebuild ends, the capacity is the policy's
    // again, and the active connectors are told.
    fn fail(&mut self) -> (ShellReply, Deeds)
        requires { 1 ≤ self.old.room }
        ensures form { self.new.form ≡ self.old.form }
        ensures acts { record { reply = result.0; shell = self.new.shell; deeds = result.1 }
            ≡ failed_outcome self.old.form self.old.shell }
        ensures room { self.old.room ≤ self.new.room + 1 }
    {
        self.primary = None;
        self.secondary = None;
        self.rebuild = None;
        self.failed = true;
        self.caps = self.form.caps;
        self.mail.tell(self.conns.active(), Event::StrFail);
        (
            ShellReply::FailedNow,
            Deeds {
                drop_all: true,
                ..no_deeds()
            },
        )
    }

    // A rebuild whose new instance stands in the facility loses it, and stops.
    fn lose_fresh(&mut self, cf: CfId) -> (ShellReply, Deeds)
        requires { 1 ≤ self.old.room }
        ensures form { self.new.form ≡ self.old.form }
        ensures acts { record { reply = result.0; shell = self.new.shell; deeds = result.1 }
            ≡ fresh_loss cf self.old.shell.rebuild self.old.shell }
        ensures room { self.old.room ≤ self.new.room + 1 }
    {
        match self.rebuild {
            Some(rebuild) if is_at(cf, rebuild.fresh) => {
                let number = rebuild.number;
                self.give_up(rebuild);
                (
                    ShellReply::Stopped { number },
                    Deeds {
                        drop_fresh: true,
                        ..no_deeds()
                    },
                )
            }
            _ => (ShellReply::OkNone, no_deeds()),
        }
    }
}

// Which loss a reply tells.
fn loss_told(reply: ShellReply) -> LostAs
    requires { is_loss reply ≡ true }
    ensures { reply_as result ≡ reply }
{
    match reply {
        ShellReply::Simplex { cf } => LostAs::Simplex { cf },
        ShellReply::Stopped { number } => LostAs::Stopped { number },
        ShellReply::FailedNow => LostAs::FailedNow,
        _ => unreachable!(),
    }
}
