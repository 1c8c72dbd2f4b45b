ghost use Rattle.std.specs.Prelude.{◌≡◌, ◌∷◌, [], nat_lt, is_none};
ghost use Rattle.std.specs.Result.{result_err};
ghost use Rattle.cf_types.specs.Connections.{state_of, defined_count};
ghost use Rattle.cf_types.specs.Forms.{IsCaller};
ghost use Rattle.cf_types.specs.Mailboxes.{next_event, owed_event};
ghost use Rattle.cf_types.specs.declared.refusals.Refusal.TheVariants as refusal;
ghost use Rattle.engine_api.specs.Asking.{MayCommand};
ghost use Rattle.engine_api.specs.Meaning.{first_refusal};
ghost use Rattle.engine_api.specs.Shell.{refusal_when, unless_active, if_lost, if_failed, if_connected, if_rebuilding, if_too_many, unless_reached, unless_failed, shell_cause, content_cause};

use crate::shell::Shell;
use crate::verdicts::Judged;
use cf_types::{ConnId, ConnState, Refusal, ShellCmd, StateWord};
use engine_api::Room;

impl Shell {
    /// Why a common command is refused, if it is: the first cause that holds.
    pub(crate) fn judge_command(&self, by: ConnId, cmd: &ShellCmd, room: &Room) -> Judged
        requires { MayCommand by cmd.now }
        ensures { result_err result
            ≡ shell_cause self.now.form room.now self.now.shell by cmd.now }
    {
        match cmd {
            ShellCmd::Connect { .. } => self.judge_connect(by),
            ShellCmd::Disconnect | ShellCmd::Fail => self.unless_active(by),
            ShellCmd::Next => self.judge_next(by),
            ShellCmd::Respond => self.judge_respond(by),
            ShellCmd::RebuildStart { .. } => self.judge_start(by),
            ShellCmd::RebuildStop => self.judge_stop(by),
            ShellCmd::RebuildConnect => self.judge_rebuild_connect(by, room),
            ShellCmd::Copy { .. } => self.judge_copy(by),
            ShellCmd::RebuildComplete => self.judge_complete(by, room),
            ShellCmd::ForceConn { conn } => self.unless_failed(*conn),
            ShellCmd::ForceStr => self.if_defined(),
            ShellCmd::LoseConn { .. } | ShellCmd::RestoreConn { .. } => Ok(()),
            ShellCmd::Vary { .. } | ShellCmd::DuplexStop => Ok(()),
            ShellCmd::DuplexStart => self.judge_duplex(by),
        }
    }

    /// Why a command on the content is refused before the engine is asked, if it is.
    pub(crate) fn judge_content(&self, by: ConnId) -> Judged
        requires { IsCaller by }
        ensures { result_err result ≡ content_cause self.now.shell by }
    {
        self.unless_active(by)?;
        self.if_lost()?;
        self.if_failed()?;
        self.if_quiesced(by)?;
        self.unless_in_reach(by)
    }

    fn judge_connect(&self, by: ConnId) -> Judged
        requires { IsCaller by }
        ensures { result_err result ≡ first_refusal (if_failed self.now.shell
            ∷ if_connected (state_of self.now.shell.conns by)
            ∷ if_rebuilding self.now.shell.rebuild ∷ if_too_many self.now.form self.now.shell by
            ∷ unless_reached self.now.form self.now.shell by) }
    {
        self.if_failed()?;
        self.if_connected(by)?;
        self.if_rebuilding()?;
        self.if_too_many(by)?;
        self.unless_reached(by)
    }

    fn judge_next(&self, by: ConnId) -> Judged
        requires { IsCaller by }
        ensures { result_err result ≡ first_refusal (unless_active self.now.shell by
            ∷ refusal_when (is_none (next_event self.now.shell.mail by)) refusal.NoEvent ∷ []) }
    {
        self.unless_active(by)?;
        self.unless_waiting(by)
    }

    fn judge_respond(&self, by: ConnId) -> Judged
        requires { IsCaller by }
        ensures { result_err result ≡ first_refusal (unless_active self.now.shell by
            ∷ refusal_when (is_none (owed_event self.now.shell.mail by)) refusal.NothingOwed
            ∷ []) }
    {
        self.unless_active(by)?;
        self.unless_owing(by)
    }

    /// The caller isn't active.
    pub(crate) fn unless_active(&self, by: ConnId) -> Judged
        ensures { result_err result ≡ unless_active self.now.shell by }
    {
        if self.conns.is_active(by) {
            Ok(())
        } else {
            Err(Refusal::NotConnected)
        }
    }

    // The caller is active or leaving already.
    fn if_connected(&self, by: ConnId) -> Judged
        ensures { result_err result ≡ if_connected (state_of self.now.shell.conns by) }
    {
        match self.conns.state(by) {
            Some(ConnState::Active { .. }) => Err(Refusal::NameActive {
                state: StateWord::Active,
            }),
            Some(ConnState::Leaving { .. }) => Err(Refusal::NameActive {
                state: StateWord::Leaving,
            }),
            Some(ConnState::Failed) => Ok(()),
            None => Ok(()),
        }
    }

    // The caller has no connection, and there are as many as the structure admits.
    fn if_too_many(&self, by: ConnId) -> Judged
        ensures { result_err result ≡ if_too_many self.now.form self.now.shell by }
    {
        let limit = self.form.conns;
        if self.conns.state(by).is_none() && u32::from(limit) <= self.conns.defined() {
            Err(Refusal::TooManyConns { limit })
        } else {
            Ok(())
        }
    }

    // No event waits for the caller.
    fn unless_waiting(&self, by: ConnId) -> Judged
        requires { IsCaller by }
        ensures { result_err result
            ≡ refusal_when (is_none (next_event self.now.shell.mail by)) refusal.NoEvent }
    {
        if self.mail.waiting(by).is_none() {
            Err(Refusal::NoEvent)
        } else {
            Ok(())
        }
    }

    // The caller owes no response.
    fn unless_owing(&self, by: ConnId) -> Judged
        requires { IsCaller by }
        ensures { result_err result
            ≡ refusal_when (is_none (owed_event self.now.shell.mail by)) refusal.NothingOwed }
    {
        if self.mail.owed(by).is_none() {
            Err(Refusal::NothingOwed)
        } else {
            Ok(())
        }
    }

    // The connection isn't failed.
    fn unless_failed(&self, conn: ConnId) -> Judged
        ensures { result_err result
            ≡ unless_failed (state_of self.now.shell.conns conn) }
    {
        let state = match self.conns.state(conn) {
            Some(ConnState::Active { .. }) => StateWord::Active,
            Some(ConnState::Leaving { .. }) => StateWord::Leaving,
            Some(ConnState::Failed) => return Ok(()),
            None => StateWord::Gone,
        };
        Err(Refusal::NotFailed { state })
    }

    // Connections are defined.
    fn if_defined(&self) -> Judged
        ensures { result_err result ≡ refusal_when (nat_lt 0 (defined_count self.now.shell.conns))
            (refusal.HasConnections (defined_count self.now.shell.conns)) }
    {
        let n = self.conns.defined();
        if n > 0 {
            Err(Refusal::HasConnections { n })
        } else {
            Ok(())
        }
    }
}
