ghost use Rattle.std.specs.Prelude.{◌≡◌};
ghost use Rattle.cf_types.specs.Mailboxes.{owes_response};
ghost use Rattle.engine_api.specs.Told.{told_of, told_plainly, link_of, link_of_ask, is_passing, is_owing};

use crate::asks::{Ask, Reply};
use cf_types::{Event, Refusal, ShellCmd, ShellReply};

/// What a caller is told of a call. The reply itself moves into the journal.
#[derive(Clone, Copy, Debug, PartialEq, Eq)]
pub struct Told {
    /// The number of the call's entry, from 1.
    pub no: u32,
    /// The call may be asked again: the reply is Quiesced or WrongStage.
    pub again: bool,
    /// The reply is an event.
    pub event: bool,
    /// The reply is an event that owes a response.
    pub owes: bool,
    /// The reply makes the caller active, or not active.
    pub linked: Option<bool>,
}

impl Told {
    /// What is told of a call with this number.
    pub fn of<C, R>(no: u32, ask: &Ask<C>, reply: &Reply<R>) -> Told
        ensures { result ≡ told_of no ask.now reply.now }
    {
        match reply {
            Reply::Shell(answer) => Told {
                no,
                again: false,
                event: matches!(answer, ShellReply::Event { .. }),
                owes: is_owing(answer),
                linked: link_of_ask(ask, answer),
            },
            Reply::Content(_) => plain(no, false),
            Reply::Refused(refusal) => plain(no, is_passing(refusal)),
        }
    }
}

// What is told of a call that is no event and changes no connection.
fn plain(no: u32, again: bool) -> Told
    ensures { result ≡ told_plainly no again }
{
    Told {
        no,
        again,
        event: false,
        owes: false,
        linked: None,
    }
}

// Whether a refusal passes with the stages of a rebuild.
fn is_passing(refusal: &Refusal) -> bool
    ensures { result ≡ is_passing refusal.now }
{
    matches!(
        refusal,
        Refusal::Quiesced { .. } | Refusal::WrongStage { .. }
    )
}

// Whether the answer is an event that is to be answered.
fn is_owing(answer: &ShellReply) -> bool
    ensures { result ≡ is_owing answer.now }
{
    match answer {
        ShellReply::Event { event } => owes_response(event),
        _ => false,
    }
}

// Whether an event is to be answered.
fn owes_response(event: &Event) -> bool
    ensures { result ≡ owes_response event.now }
{
    matches!(
        event,
        Event::DiscFail { .. } | Event::Quiesce { .. } | Event::Cleanup { .. } | Event::Stop { .. }
    )
}

// Whether a common command that was answered so makes its caller active, or not active.
fn link_of(cmd: &ShellCmd, answer: &ShellReply) -> Option<bool>
    ensures { result ≡ link_of cmd.now answer.now }
{
    match (cmd, answer) {
        (ShellCmd::Connect { .. }, ShellReply::OkNew { .. } | ShellReply::Reconnected { .. }) => {
            Some(true)
        }
        (ShellCmd::Disconnect | ShellCmd::Fail, ShellReply::Ok) => Some(false),
        _ => None,
    }
}

// The same of anything that can be asked.
fn link_of_ask<C>(ask: &Ask<C>, answer: &ShellReply) -> Option<bool>
    ensures { result ≡ link_of_ask ask.now answer.now }
{
    match ask {
        Ask::Shell(cmd) => link_of(cmd, answer),
        Ask::Content(_) => None,
    }
}
