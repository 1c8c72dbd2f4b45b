ghost use Rattle.std.specs.Prelude.{◌≡◌, ◌≤◌, ◌<◌, ◌+◌, ◌-◌, ◌∷◌, [], min, is_some, IfOk, OnOk};
ghost use Rattle.std.specs.Result.{result_err};
ghost use Rattle.cf_types.specs.declared.limits.TheConstants.{CONNECTORS};
ghost use Rattle.cf_types.specs.Forms.{IsForm, IsCaller, IsCapacity};
ghost use Rattle.cf_types.specs.declared.shell_commands.ShellReply.TheVariants as replies;
ghost use Rattle.engine_api.specs.Asking.{MayAsk, MayCommand};
ghost use Rattle.engine_api.specs.Rebuilds.{fresh_of};
ghost use Rattle.engine_api.specs.Shell.{opening_shell, entered, shell_cause, shell_done, leaver, is_kept, with_posted, no_deeds, caps_made};
ghost use Rattle.cf_types.specs.Connections.{state_of};
ghost use Rattle.plex_shell.specs.Verdicts.{refused_or, doer_of, verdict, leaver_pair, instances_of};

use crate::connectivity::Connectivity;
use crate::varied::VariedOff;
use crate::verdicts::{Judged, Verdict};
use cf_types::{
    Caps, CfId, ConnId, ConnState, Letter, Listing, NoMemory, Refusal, ShellCmd, ShellReply,
    StrForm,
};
use conn_core::Conns;
use engine_api::rebuilds::Rebuild;
use engine_api::{Ask, Deeds, Room};
use event_mail::Mail;
use std::alloc::Global;
use std::marker::Model;

/// The most letters that `act` posts to one mailbox, and `lost`.
pub const ACT_LETTERS: usize = 2;

/// The shell of one structure. Contracts see the form, what the shell keeps (instances, connections
/// and mail), and for how many letters room is taken.
#[derive(Drop)]
pub struct Shell {
    pub(crate) form: StrForm,
    pub(crate) primary: Option<CfId>,
    pub(crate) secondary: Option<CfId>,
    pub(crate) conns: Conns,
    pub(crate) mail: Mail,
    pub(crate) rebuild: Option<Rebuild>,
    pub(crate) started: u32,
    pub(crate) reach: Connectivity,
    pub(crate) off: VariedOff,
    pub(crate) failed: bool,
    pub(crate) lost: Option<CfId>,
    pub(crate) caps: Caps,
}

impl Model for Shell {
    ghost use Rattle.plex_shell.specs.ShellView.{ShellView, view_of, IsKept};

    ghost Value = { ShellView };

    ghost view = { view_of };

    ghost invariant = { IsKept };
}

impl Shell {
    /// The shell of a structure of this form, in which nobody is connected. `callers` is the
    /// greatest number of a connector, 64 at most.
    pub fn start(alloc: Global, form: StrForm, callers: u8) -> Result<Shell, NoMemory>
        requires form { IsForm form }
        requires callers { callers ≤ CONNECTORS }
        ensures form { IfOk result (λ shell. shell.form ≡ form) }
        ensures shell { IfOk result (λ shell. shell.shell ≡ opening_shell form) }
    {
        let mail = Mail::new(alloc, callers)?;
        let caps = form.caps;
        Ok(Shell {
            form,
            primary: None,
            secondary: None,
            conns: Conns::new(),
            mail,
            rebuild: None,
            started: 0,
            reach: Connectivity::whole(),
            off: VariedOff::none(),
            failed: false,
            lost: None,
            caps,
        })
    }

    /// The form of the structure.
    pub fn form(&self) -> &StrForm
        ensures form { result.now ≡ self.now.form }
        ensures formed { IsForm result.now }
    {
        &self.form
    }

    /// What is to be done with a call: the first refusal that holds, or who does it.
    pub fn judge<C>(&self, by: ConnId, ask: &Ask<C>, room: &Room) -> Verdict
        requires may { MayAsk by ask.now }
        ensures { result ≡ verdict self.now.form room.now self.now.shell by ask.now }
    {
        match ask {
            Ask::Shell(cmd) => refused_or(self.judge_command(by, cmd, room), doer_of(cmd)),
            Ask::Content(_) => refused_or(self.judge_content(by), Verdict::Content),
        }
    }

    /// Takes room for so many letters to each connector, by `post` and `act` together. Want of memory
    /// changes nothing; letters for which no numbers of rebuilds are left are told as such.
    pub fn ready(&mut self, letters: usize) -> Result<(), NoMemory>
        ensures room { OnOk result (letters ≤ self.new.room) }
        ensures more { self.old.room ≤ self.new.room }
        ensures form { self.new.form ≡ self.old.form }
        ensures shell { self.new.shell ≡ self.old.shell }
    {
        if letters > (u32::MAX - self.started) as usize {
            return Err(NoMemory::beyond_counts());
        }
        self.mail.room(letters)
    }

    /// The departure from the content that a command brings, and whether the interests that outlive
    /// a failure stay; none where it brings none.
    pub fn leaving(&self, by: ConnId, cmd: &ShellCmd) -> Option<(ConnId, bool)>
        requires may { MayCommand by cmd.now }
        ensures { result ≡ leaver_pair (leaver self.now.shell by cmd.now) }
    {
        match cmd {
            ShellCmd::Disconnect => Some((by, false)),
            ShellCmd::Fail => Some((by, self.is_kept(by))),
            ShellCmd::ForceConn { conn } => Some((*conn, false)),
            _ => None,
        }
    }

    /// Puts a letter last in its connector's mail. One to a number that is no connector's reaches
    /// nobody.
    pub fn post(&mut self, letter: Letter)
        requires room { 0 < self.old.room }
        ensures form { self.new.form ≡ self.old.form }
        ensures shell { self.new.shell ≡ with_posted (letter ∷ []) self.old.shell }
        ensures room { self.old.room ≤ self.new.room + 1 }
    {
        self.mail.post(letter);
    }

    /// Does a common command that isn't refused, for which room for `ACT_LETTERS` letters was
    /// taken. The departure that `leaving` tells is done to the content before, and its letters are
    /// posted.
    pub fn act(&mut self, by: ConnId, cmd: &ShellCmd, room: &Room) -> (ShellReply, Deeds)
        requires may { MayCommand by cmd.now }
        requires accepted { shell_cause self.old.form room.now self.old.shell by cmd.now ≡ None }
        requires room { ACT_LETTERS ≤ self.old.room }
        ensures form { self.new.form ≡ self.old.form }
        ensures acts { record { reply = result.0; shell = self.new.shell; deeds = result.1 }
            ≡ shell_done self.old.form room.now self.old.shell by cmd.now }
        ensures room { self.old.room ≤ self.new.room + ACT_LETTERS }
    {
        match cmd {
            ShellCmd::Connect { keep } => self.connect(by, *keep),
            ShellCmd::Disconnect => self.depart(by, false),
            ShellCmd::Fail => self.depart(by, self.is_kept(by)),
            ShellCmd::Next => self.take_event(by),
            ShellCmd::Respond => self.respond(by),
            ShellCmd::RebuildStart { caps } => self.start_rebuild(*caps),
            ShellCmd::RebuildStop => self.stop_rebuild(),
            ShellCmd::RebuildConnect => self.connect_rebuild(by),
            ShellCmd::Copy { n } => copy_told(*n, room),
            ShellCmd::RebuildComplete => self.complete_rebuild(by),
            ShellCmd::ForceConn { conn } => self.force_connection(*conn),
            ShellCmd::ForceStr => self.force_structure(),
            ShellCmd::LoseConn { conn, cf } => self.lose_connectivity(*conn, *cf),
            ShellCmd::RestoreConn { conn, cf } => self.restore_connectivity(*conn, *cf),
            ShellCmd::Vary { cf, off } => self.vary(*cf, *off),
            ShellCmd::DuplexStart => self.start_duplex(by),
            ShellCmd::DuplexStop => self.stop_duplex(),
        }
    }

    /// A call has come: what was lost before it isn't told to later ones.
    pub fn entered(&mut self)
        ensures form { self.new.form ≡ self.old.form }
        ensures shell { self.new.shell ≡ entered self.old.shell }
        ensures room { self.new.room ≡ self.old.room }
    {
        self.lost = None;
    }

    /// The facilities of the primary, of the secondary, and of a rebuild's new instance.
    pub fn instances(&self) -> (Option<CfId>, Option<CfId>, Option<CfId>)
        ensures { result ≡ instances_of self.now.shell }
    {
        (self.primary, self.secondary, self.fresh())
    }

    /// A connector's state; none where it isn't connected.
    pub fn state(&self, conn: ConnId) -> Option<ConnState>
        ensures { result ≡ state_of self.now.shell.conns conn }
    {
        self.conns.state(conn)
    }

    /// Whether the structure has lost its last instance.
    pub fn has_failed(&self) -> bool
        ensures { result ≡ self.now.shell.failed }
    {
        self.failed
    }

    /// The rebuild under way.
    pub fn rebuild(&self) -> Option<Rebuild>
        ensures { result ≡ self.now.shell.rebuild }
    {
        self.rebuild
    }

    /// Whether a rebuild is under way.
    pub fn is_rebuilding(&self) -> bool
        ensures { result ≡ is_some self.now.shell.rebuild }
    {
        self.rebuild.is_some()
    }

    /// The capacity of an instance that is made now: a rebuild's, or that of the structure.
    pub fn caps(&self) -> Caps
        ensures made { result ≡ caps_made self.now.shell }
        ensures capacity { IsCapacity result }
    {
        match &self.rebuild {
            Some(rebuild) => rebuild.caps,
            None => self.caps,
        }
    }

    /// The facility of a rebuild's new instance.
    pub(crate) fn fresh(&self) -> Option<CfId>
        ensures { result ≡ fresh_of self.now.shell.rebuild }
    {
        match &self.rebuild {
            Some(rebuild) => rebuild.fresh,
            None => None,
        }
    }

    // Whether the connection stays, as failed, when its connector fails.
    fn is_kept(&self, conn: ConnId) -> bool
        ensures { result ≡ is_kept (state_of self.now.shell.conns conn) }
    {
        match self.conns.state(conn) {
            Some(ConnState::Active { keep }) => keep,
            Some(ConnState::Leaving { keep, .. }) => keep,
            Some(ConnState::Failed) => true,
            None => false,
        }
    }
}

/// Nothing is to be done.
pub(crate) fn no_deeds() -> Deeds
    ensures { result ≡ no_deeds }
{
    Deeds {
        back: None,
        make: None,
        second: None,
        drop_at: None,
        restart: false,
        switch: false,
        drop_fresh: false,
        drop_all: false,
    }
}

/// An equal form.
pub fn copy_form(alloc: Global, form: &StrForm) -> Result<StrForm, NoMemory>
    ensures { IfOk result (λ copy. copy ≡ form.now) }
{
    let prefs = Vec::from_slice(alloc, form.prefs.items())?;
    Ok(StrForm {
        name: form.name,
        kind: form.kind,
        caps: form.caps,
        conns: form.conns,
        vector: form.vector,
        keep: form.keep,
        prefs: Listing::from_vec(prefs),
    })
}

// Who does a common command.
fn doer_of(cmd: &ShellCmd) -> Verdict
    ensures { result ≡ doer_of cmd.now }
{
    match cmd {
        ShellCmd::Copy { .. } => Verdict::Copy,
        _ => Verdict::Act,
    }
}

// COPY: what it moves, and what is left then.
fn copy_told(n: u32, room: &Room) -> (ShellReply, Deeds)
    ensures reply { result.0 ≡ replies.Copied (min n room.now.left)
        (room.now.left - min n room.now.left) }
    ensures deeds { result.1 ≡ no_deeds }
{
    let moved = n.min(room.left);
    let left = room.left - moved;
    (ShellReply::Copied { moved, left }, no_deeds())
}

// Refused for a cause, or else done by who does it.
fn refused_or(judged: Judged, verdict: Verdict) -> Verdict
    ensures { result ≡ refused_or (result_err judged) verdict }
{
    match judged {
        Err(refusal) => Verdict::Refuse(refusal),
        Ok(()) => verdict,
    }
}
