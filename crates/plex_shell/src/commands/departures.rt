ghost use Rattle.std.specs.Prelude.{◌≡◌, ◌≤◌, ◌+◌, IsTrue, true};
ghost use Rattle.cf_types.specs.Connections.{is_active};
ghost use Rattle.cf_types.specs.Forms.{IsCaller};
ghost use Rattle.engine_api.specs.Shell.{departure_outcome, is_restart, is_drop, goes, deallocated, unless_gone, no_deeds};
ghost use Rattle.plex_shell.specs.declared.shell.TheConstants.{ACT_LETTERS};

use crate::rebuild_causes::is_copy;
use crate::shell::{Shell, no_deeds};
use cf_types::{ConnId, Event, ShellReply};
use engine_api::Deeds;
use engine_api::rebuilds::Rebuild;

impl Shell {
    /// DISCONNECT and FAIL: the caller departs. Its events end, nobody awaits it any more, and
    /// those who are active then are told.
    pub(crate) fn depart(&mut self, by: ConnId, keep: bool) -> (ShellReply, Deeds)
        requires caller { IsCaller by }
        requires active { IsTrue (is_active self.old.shell.conns by) }
        requires room { ACT_LETTERS ≤ self.old.room }
        ensures form { self.new.form ≡ self.old.form }
        ensures acts { record { reply = result.0; shell = self.new.shell; deeds = result.1 }
            ≡ departure_outcome self.old.form self.old.shell by keep }
        ensures room { self.old.room ≤ self.new.room + ACT_LETTERS }
    {
        let before = self.rebuild;
        self.mail.clear(by);
        self.leave_rebuild(by);
        self.conns.depart(by, keep);
        let departure = Event::DiscFail { conn: by };
        self.mail.tell(self.conns.active(), departure);
        let deeds = self.end_if_gone();
        let restart = is_restart(&before, &self.rebuild);
        let drop_fresh = is_drop(&before, &self.rebuild);
        (
            ShellReply::Ok,
            Deeds {
                restart,
                drop_fresh,
                ..deeds
            },
        )
    }

    /// A structure of disposition DELETE ends with its last connection.
    pub(crate) fn end_if_gone(&mut self) -> Deeds
        ensures form { self.new.form ≡ self.old.form }
        ensures shell { self.new.shell ≡ unless_gone self.old.form self.old.shell }
        ensures conns { self.new.shell.conns ≡ self.old.shell.conns }
        ensures room { self.new.room ≡ self.old.room }
        ensures deeds { result
            ≡ record no_deeds { drop_all = goes self.old.form self.old.shell.conns } }
    {
        if !self.form.keep && self.conns.defined() == 0 {
            self.end()
        } else {
            no_deeds()
        }
    }

    /// All instances end, and the capacity is the policy's again. A failure is over.
    pub(crate) fn end(&mut self) -> Deeds
        ensures form { self.new.form ≡ self.old.form }
        ensures shell { self.new.shell ≡ deallocated self.old.form self.old.shell }
        ensures room { self.new.room ≡ self.old.room }
        ensures deeds { result ≡ record no_deeds { drop_all = true } }
    {
        self.primary = None;
        self.secondary = None;
        self.failed = false;
        self.caps = self.form.caps;
        Deeds {
            drop_all: true,
            ..no_deeds()
        }
    }
}

// The new instance is emptied by a departure.
fn is_restart(before: &Option<Rebuild>, after: &Option<Rebuild>) -> bool
    ensures { result ≡ is_restart before.now after.now }
{
    match (before, after) {
        (Some(rebuild), Some(_)) => is_copy(rebuild.stage),
        _ => false,
    }
}

// The new instance goes with the last member.
fn is_drop(before: &Option<Rebuild>, after: &Option<Rebuild>) -> bool
    ensures { result ≡ is_drop before.now after.now }
{
    match before {
        Some(rebuild) => rebuild.fresh.is_some() && after.is_none(),
        None => false,
    }
}
