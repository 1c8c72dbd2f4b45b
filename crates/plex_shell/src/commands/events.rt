ghost use Rattle.std.specs.Prelude.{◌≡◌, ◌≤◌, ◌+◌, IsSome};
ghost use Rattle.cf_types.specs.Connections.{with_answer};
ghost use Rattle.cf_types.specs.Forms.{IsCaller};
ghost use Rattle.cf_types.specs.Mailboxes.{next_event, owed_event};
ghost use Rattle.engine_api.specs.Shell.{take_event, response_outcome, conns_answered};

use crate::shell::{Shell, no_deeds};
use cf_types::{ConnId, ConnState, Event, ShellReply};
use conn_core::Conns;
use engine_api::Deeds;

impl Shell {
    /// NEXT: the first event that waits is taken.
    pub(crate) fn take_event(&mut self, by: ConnId) -> (ShellReply, Deeds)
        requires caller { IsCaller by }
        requires waits { IsSome (next_event self.old.shell.mail by) }
        ensures form { self.new.form ≡ self.old.form }
        ensures acts { record { reply = result.0; shell = self.new.shell; deeds = result.1 }
            ≡ take_event self.old.shell by (next_event self.old.shell.mail by) }
        ensures room { self.new.room ≡ self.old.room }
    {
        let event = self.mail.next(by).unwrap();
        (ShellReply::Event { event }, no_deeds())
    }

    /// RESPOND: the oldest event that is owed is answered.
    pub(crate) fn respond(&mut self, by: ConnId) -> (ShellReply, Deeds)
        requires caller { IsCaller by }
        requires owes { IsSome (owed_event self.old.shell.mail by) }
        requires room { 1 ≤ self.old.room }
        ensures form { self.new.form ≡ self.old.form }
        ensures acts { record { reply = result.0; shell = self.new.shell; deeds = result.1 }
            ≡ response_outcome self.old.shell by (owed_event self.old.shell.mail by) }
        ensures room { self.old.room ≤ self.new.room + 1 }
    {
        let event = self.mail.respond(by).unwrap();
        answer(&mut self.conns, by, event);
        let switch = self.answer_rebuild(by, &event);
        (
            ShellReply::Responded { event },
            Deeds {
                switch,
                ..no_deeds()
            },
        )
    }
}

// The connections once an event is answered.
fn answer(conns: &mut Conns, by: ConnId, event: Event)
    requires { IsCaller by }
    ensures { conns.new ≡ conns_answered by event conns.old }
{
    match event {
        Event::DiscFail { conn } => excuse(conns, by, conn),
        Event::NewConn { .. }
        | Event::Quiesce { .. }
        | Event::RebuildConnect { .. }
        | Event::ConnectsDone { .. }
        | Event::Cleanup { .. }
        | Event::Complete { .. }
        | Event::Stop { .. }
        | Event::StopDone { .. }
        | Event::LostConn { .. }
        | Event::StrFail
        | Event::Contention { .. }
        | Event::Notify { .. }
        | Event::Granted { .. }
        | Event::Denied { .. } => {}
    }
}

// A connector has answered the departure of another. Where that one isn't leaving any more, nothing
// changes.
fn excuse(conns: &mut Conns, by: ConnId, about: ConnId)
    requires { IsCaller by }
    ensures { conns.new ≡ with_answer by about conns.old }
{
    match conns.state(about) {
        Some(ConnState::Leaving { .. }) => conns.answered(by, about),
        Some(ConnState::Active { .. }) => {}
        Some(ConnState::Failed) => {}
        None => {}
    }
}
