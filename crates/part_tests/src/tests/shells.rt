ghost use Rattle.std.specs.Prelude.{◌≡◌, IfOk};
ghost use Rattle.engine_api.specs.CfTypes.Forms.{IsForm};
ghost use Rattle.engine_api.specs.Asking.{MayCommand};

use engine_api::Ask;
use engine_api::types::{
    Caps, CfId, ConnId, ConnState, Event, Kind, Letter, Listing, Name16, NoMemory, Pref, ShellCmd,
    ShellReply, StrForm,
};
use std::alloc::Global;
use std::test::Fail;
use struct_machine::connections::Conns;
use struct_machine::mail::Mail;
use struct_machine::shells::{ACT_LETTERS, Deeds, Room, Shell, Verdict};

// Whether a connection failed, by what is shown of it.
fn is_failed(state: Option<ConnState>) -> bool {
    matches!(state, Some(ConnState::Failed))
}

#[test]
fn departure_finishes_once_it_is_answered(rt: HostRuntime) -> Result<(), Fail> {
    let one = ConnId(1);
    let two = ConnId(2);
    let mut conns = Conns::new();
    conns.connect(one, true);
    conns.connect(two, true);
    assert!(rt; conns.active().len() == 2);

    conns.depart(one, true);
    assert!(rt; !is_failed(conns.state(one)) && conns.active().len() == 1);
    conns.answered(two, one);
    assert!(rt; is_failed(conns.state(one)) && conns.defined() == 2);
    Ok(())
}

// A letter to the third connector that it has to answer, and one that it hasn't.
const TO: ConnId = ConnId(3);

const ASKED: Event = Event::DiscFail { conn: ConnId(2) };

const TOLD: Event = Event::NewConn { conn: ConnId(1) };

// Posts both letters.
fn post_both(mail: &mut Mail) -> Result<(), NoMemory> {
    mail.room(2)?;
    mail.post(Letter {
        to: TO,
        event: ASKED,
    });
    mail.post(Letter {
        to: TO,
        event: TOLD,
    });
    Ok(())
}

// Whether both letters are taken in order, by nobody else, and the first is answered once.
fn are_taken(mail: &mut Mail) -> bool {
    mail.next(ConnId(4)).is_none()
        && mail.next(TO) == Some(ASKED)
        && mail.next(TO) == Some(TOLD)
        && mail.next(TO).is_none()
        && mail.respond(TO) == Some(ASKED)
        && mail.respond(TO).is_none()
}

// Whether a letter goes with the connector's mail.
fn is_cleared(mail: &mut Mail) -> Result<bool, NoMemory> {
    mail.room(1)?;
    mail.post(Letter {
        to: TO,
        event: ASKED,
    });
    mail.clear(TO);
    Ok(mail.next(TO).is_none())
}

// Whether letters that are posted are taken so, and cleared.
fn delivers(mail: &mut Mail) -> Result<bool, NoMemory> {
    post_both(mail)?;
    Ok(are_taken(mail) && is_cleared(mail)?)
}

#[test]
fn letters_are_taken_in_order_and_answered(rt: HostRuntime) -> Result<(), Fail> {
    let mut mail = Mail::new(rt.alloc(), 4)?;
    assert!(rt; delivers(&mut mail)?);
    Ok(())
}

const FIRST: CfId = CfId(1);

const SECOND: CfId = CfId(2);

// A cache with two facilities that have room for it. The second comes first.
fn cache(alloc: Global) -> Result<StrForm, NoMemory>
    ensures { IfOk result (λ form. IsForm form) }
{
    let caps = Caps {
        entries: 8,
        elements: 8,
    };
    let second = Pref {
        cf: SECOND,
        units: 16,
    };
    let first = Pref {
        cf: FIRST,
        units: 100,
    };
    let prefs = Vec::from_slice(alloc, &[second, first])?;
    Ok(StrForm {
        name: Name16([32; 16]),
        kind: Kind::Cache,
        caps,
        conns: 4,
        vector: 64,
        keep: false,
        prefs: Listing::from_vec(prefs),
    })
}

// A shell of that cache.
fn shell(alloc: Global) -> Result<Shell, NoMemory> {
    let form = cache(alloc)?;
    Shell::start(alloc, form, 2)
}

// What the engines know where nothing is in the structure.
const EMPTY: Room = Room {
    need: Caps {
        entries: 0,
        elements: 0,
    },
    left: 0,
};

// Does a command that isn't refused: what is answered, and what is to be done to the instances.
fn act(
    shell: &mut Shell,
    by: ConnId,
    cmd: &ShellCmd,
) -> Result<Option<(ShellReply, Deeds)>, NoMemory>
    requires { MayCommand by cmd.now }
{
    shell.ready(ACT_LETTERS)?;
    let ask: Ask<u8> = Ask::Shell(*cmd);
    match shell.judge(by, &ask, &EMPTY) {
        Verdict::Act => Ok(Some(shell.act(by, cmd, &EMPTY))),
        _ => Ok(None),
    }
}

// Whether the first connector makes the primary, in the second facility.
fn makes_the_primary(shell: &mut Shell) -> Result<bool, NoMemory> {
    let none = shell.instances() == (None, None, None);
    let done = act(shell, ConnId(1), &ShellCmd::Connect { keep: false })?;
    Ok(match done {
        Some((ShellReply::OkNew { cf: SECOND }, deeds)) => none
            && deeds.make == Some(SECOND)
            && shell.instances() == (Some(SECOND), None, None),
        _ => false,
    })
}

// Whether a rebuild makes its instances of the capacity that it is given.
fn takes_its_capacity(shell: &mut Shell) -> Result<bool, NoMemory> {
    let caps = Caps {
        entries: 10,
        elements: 10,
    };
    let other = shell.caps() != caps;
    let done = act(shell, ConnId(0), &ShellCmd::RebuildStart { caps })?;
    Ok(other && done.is_some() && shell.caps() == caps)
}

// Whether instances are made so.
fn makes_instances(shell: &mut Shell) -> Result<bool, NoMemory> {
    Ok(makes_the_primary(shell)? && takes_its_capacity(shell)?)
}

#[test]
fn instances_are_made(rt: HostRuntime) -> Result<(), Fail> {
    let mut shell = shell(rt.alloc())?;
    assert!(rt; makes_instances(&mut shell)?);
    Ok(())
}
