ghost use Rattle.std.specs.Prelude.{◌≡◌, true, IfOk, IfSome, IsTrue};
ghost use Rattle.engine_api.specs.CfTypes.Forms.{IsForm, is_cache};
ghost use Rattle.engine_api.specs.Asking.{MayCommand};

mod pairs;

use crate::counted::Counted;
use crate::tokens::{Share, Token};
use engine_api::Ask;
use engine_api::types::{
    Caps, CfId, ConnId, Kind, Listing, Name16, NoMemory, Pref, ShellCmd, StrForm,
};
use std::alloc::Global;
use std::sync::Arc;
use std::test::Fail;
use struct_machine::links::{Links, ListLink};
use struct_machine::shells::LostAs;
use struct_machine::{Changed, Machine};

const OP: ConnId = ConnId(0);

const A: ConnId = ConnId(1);

const FIRST: CfId = CfId(1);

const SECOND: CfId = CfId(2);

// What is asked of the machine.
#[derive(Clone, Copy)]
enum Step {
    Connect,
    Disconnect,
    Fail,
    Store,
    Duplex,
    Simplex,
    LoseFirst,
    LoseSecond,
    Rebuild,
    Next,
    Respond,
    Join,
    CopyOne,
    Complete,
    Stop,
}

// A step, and how many engines that have stored a number, or have one from another, are to live
// behind it.
#[derive(Clone, Copy)]
struct Row(Step, usize);

// A machine, and the share that its engines take.
#[derive(Drop)]
struct Trial {
    machine: Machine<Counted, ListLink>,
    changed: Changed,
    share: Option<Share>,
}

// A structure for which two facilities have room.
fn form_of(alloc: Global) -> Result<StrForm, NoMemory>
    ensures form { IfOk result (λ form. IsForm form) }
    ensures kind { IfOk result (λ form. IsTrue (is_cache form.kind)) }
{
    let caps = Caps {
        entries: 8,
        elements: 8,
    };
    let first = Pref {
        cf: FIRST,
        units: 100,
    };
    let second = Pref {
        cf: SECOND,
        units: 100,
    };
    let prefs = Vec::from_slice(alloc, &[first, second])?;
    Ok(StrForm {
        name: Name16([32; 16]),
        kind: Kind::Cache,
        caps,
        conns: 4,
        vector: 64,
        keep: false,
        prefs: Listing::from_vec(prefs),
    })
}

// A link that is down at these calls.
fn link_of(alloc: Global, fails: &[u64]) -> Result<ListLink, NoMemory> {
    let fails = Vec::from_slice(alloc, fails)?;
    Ok(ListLink {
        calls: 0,
        fails,
        faults: 0,
    })
}

// The links to the first and the second facility are down at these calls, the others never.
fn links_of(alloc: Global, one: &[u64], two: &[u64]) -> Result<Links<ListLink>, NoMemory> {
    let one = link_of(alloc, one)?;
    let two = link_of(alloc, two)?;
    let three = link_of(alloc, &[])?;
    let four = link_of(alloc, &[])?;
    Ok(Links {
        one,
        two,
        three,
        four,
    })
}

// A machine without calls yet, over such links.
fn machine_of(
    alloc: Global,
    one: &[u64],
    two: &[u64],
) -> Result<Machine<Counted, ListLink>, NoMemory> {
    let form = form_of(alloc)?;
    let links = links_of(alloc, one, two)?;
    match Machine::start(alloc, form, 2, links) {
        Ok(machine) => Ok(machine),
        Err((_, cause)) => Err(cause),
    }
}

fn trial_of(alloc: Global, one: &[u64], two: &[u64]) -> Result<Trial, NoMemory> {
    let machine = machine_of(alloc, one, two)?;
    let share = Arc::new(alloc, 0)?;
    Ok(Trial {
        machine,
        changed: Changed::none(alloc),
        share: Some(share),
    })
}

// The common command of a step, and who gives it. A number is stored by another one.
fn command_of(step: Step) -> Option<(ConnId, ShellCmd)>
    ensures { IfSome result (λ call. MayCommand call.0 call.1) }
{
    let caps = Caps {
        entries: 10,
        elements: 10,
    };
    match step {
        Step::Connect => Some((A, ShellCmd::Connect { keep: false })),
        Step::Disconnect => Some((A, ShellCmd::Disconnect)),
        Step::Fail => Some((A, ShellCmd::Fail)),
        Step::Store => None,
        Step::Duplex => Some((OP, ShellCmd::DuplexStart)),
        Step::Simplex => Some((OP, ShellCmd::DuplexStop)),
        Step::LoseFirst => Some((
            OP,
            ShellCmd::Vary {
                cf: FIRST,
                off: true,
            },
        )),
        Step::LoseSecond => Some((
            OP,
            ShellCmd::Vary {
                cf: SECOND,
                off: true,
            },
        )),
        Step::Rebuild => Some((OP, ShellCmd::RebuildStart { caps })),
        Step::Next => Some((A, ShellCmd::Next)),
        Step::Respond => Some((A, ShellCmd::Respond)),
        Step::Join => Some((A, ShellCmd::RebuildConnect)),
        Step::CopyOne => Some((A, ShellCmd::Copy { n: 1 })),
        Step::Complete => Some((A, ShellCmd::RebuildComplete)),
        Step::Stop => Some((OP, ShellCmd::RebuildStop)),
    }
}

// What a step asks.
fn call_of(step: Step, share: &Option<Share>) -> Result<(ConnId, Ask<Token>), NoMemory>
    ensures { IfOk result (λ call. MayAsk call.0 call.1) }
{
    match command_of(step) {
        Some((by, command)) => Ok((by, Ask::Shell(command))),
        None => {
            let token = Token::new(7, share)?;
            Ok((A, Ask::Content(token)))
        }
    }
}

ghost use Rattle.engine_api.specs.Asking.{MayAsk};

// Does a step.
fn take(alloc: Global, trial: &mut Trial, step: Step) -> Result<(), NoMemory> {
    let (by, ask) = call_of(step, &trial.share)?;
    let reply = trial.machine.answer(alloc, by, &ask, &mut trial.changed)?;
    drop(reply);
    drop(ask);
    Ok(())
}

// How many engines live: the owners of the share but for the trial.
fn live(share: &Option<Share>) -> usize {
    match share {
        Some(share) => Arc::strong_count(share) - 1,
        None => 0,
    }
}

// Whether the machine's end leaves no engine.
fn ends(trial: Trial) -> bool {
    let Trial {
        machine,
        changed,
        share,
    } = trial;
    drop(machine);
    drop(changed);
    live(&share) == 0
}

// Whether as many engines live behind each step as is told.
fn goes_as_told(alloc: Global, trial: &mut Trial, rows: &[Row]) -> Result<bool, NoMemory> {
    for row in rows {
        take(alloc, trial, row.0)?;
        if live(&trial.share) != row.1 {
            return Ok(false);
        }
    }
    Ok(true)
}

// The same, and whether none lives once the machine ends, over links to the two facilities that are
// down at these calls.
fn lives_as_told(alloc: Global, rows: &[Row], one: &[u64], two: &[u64]) -> Result<bool, NoMemory> {
    let mut trial = trial_of(alloc, one, two)?;
    let told = goes_as_told(alloc, &mut trial, rows)?;
    let ended = ends(trial);
    Ok(told && ended)
}

/// The second of two instances is stopped, and another goes with the only connector.
const STOPPED: [Row; 7] = [
    Row(Step::Connect, 0),
    Row(Step::Store, 1),
    Row(Step::Duplex, 2),
    Row(Step::Store, 2),
    Row(Step::Simplex, 1),
    Row(Step::Duplex, 2),
    Row(Step::Disconnect, 0),
];

#[test]
fn second_instance_that_is_stopped(rt: HostRuntime) -> Result<(), Fail> {
    assert!(rt; lives_as_told(rt.alloc(), &STOPPED, &[], &[])?);
    Ok(())
}

/// One of two instances is lost, and then the other.
const SECOND_LOST: [Row; 6] = [
    Row(Step::Connect, 0),
    Row(Step::Store, 1),
    Row(Step::Duplex, 2),
    Row(Step::LoseSecond, 1),
    Row(Step::Store, 1),
    Row(Step::LoseFirst, 0),
];

const FIRST_LOST: [Row; 6] = [
    Row(Step::Connect, 0),
    Row(Step::Store, 1),
    Row(Step::Duplex, 2),
    Row(Step::LoseFirst, 1),
    Row(Step::Store, 1),
    Row(Step::LoseSecond, 0),
];

#[test]
fn instances_that_are_lost(rt: HostRuntime) -> Result<(), Fail> {
    for rows in [&SECOND_LOST, &FIRST_LOST] {
        assert!(rt; lives_as_told(rt.alloc(), rows, &[], &[])?);
    }
    Ok(())
}

#[test]
fn new_instance_that_takes_the_place(rt: HostRuntime) -> Result<(), Fail> {
    assert!(rt; lives_as_told(rt.alloc(), &in_copy(2, Row(Step::Complete, 1)), &[], &[])?);
    Ok(())
}

// The steps up to a copy's first item, behind which so many engines live, and then one more.
fn in_copy(copied: usize, last: Row) -> [Row; 8] {
    [
        Row(Step::Connect, 0),
        Row(Step::Store, 1),
        Row(Step::Rebuild, 1),
        Row(Step::Next, 1),
        Row(Step::Respond, 1),
        Row(Step::Join, 1),
        Row(Step::CopyOne, copied),
        last,
    ]
}

#[test]
fn new_instance_that_goes(rt: HostRuntime) -> Result<(), Fail> {
    for last in [
        Row(Step::Stop, 1),
        Row(Step::LoseSecond, 1),
        Row(Step::LoseFirst, 0),
        Row(Step::Fail, 0),
    ] {
        assert!(rt; lives_as_told(rt.alloc(), &in_copy(2, last), &[], &[])?);
    }
    Ok(())
}

/// A store asks the link of each instance, the first one's also before there are two.
const ONE_OF_TWO: [Row; 5] = [
    Row(Step::Connect, 0),
    Row(Step::Store, 1),
    Row(Step::Duplex, 2),
    Row(Step::Store, 1),
    Row(Step::Store, 1),
];

const BOTH_OF_TWO: [Row; 4] = [
    Row(Step::Connect, 0),
    Row(Step::Store, 1),
    Row(Step::Duplex, 2),
    Row(Step::Store, 0),
];

#[test]
fn instances_that_links_lose(rt: HostRuntime) -> Result<(), Fail> {
    assert!(rt; lives_as_told(rt.alloc(), &ONE_OF_TWO, &[], &[1])?);
    assert!(rt; lives_as_told(rt.alloc(), &ONE_OF_TWO, &[2], &[])?);
    assert!(rt; lives_as_told(rt.alloc(), &BOTH_OF_TWO, &[2], &[1])?);
    Ok(())
}

// The copy finds the new instance lost, and the next one is refused: the rebuild stops.
#[test]
fn new_instance_that_a_link_loses(rt: HostRuntime) -> Result<(), Fail> {
    assert!(rt; lives_as_told(rt.alloc(), &in_copy(1, Row(Step::CopyOne, 1)), &[], &[1])?);
    Ok(())
}

// The machine loses the first instance that a number's call would ask. What became of it is told,
// where there was one.
fn lose_asked(
    machine: &mut Machine<Counted, ListLink>,
    token: Token,
) -> Result<Option<LostAs>, NoMemory> {
    let asked = machine.asks(A, &Ask::Content(token));
    match asked.first {
        Some(cf) => {
            let lost = machine.lose(cf)?;
            Ok(Some(lost))
        }
        None => Ok(None),
    }
}

// The same by the machine of a trial.
fn loses(trial: &mut Trial) -> Result<Option<LostAs>, NoMemory> {
    let token = Token::new(8, &None)?;
    lose_asked(&mut trial.machine, token)
}

// Whether the first of two instances is lost.
fn loses_first(trial: &mut Trial) -> Result<bool, NoMemory> {
    let lost = loses(trial)?;
    Ok(matches!(lost, Some(LostAs::Simplex { cf: SECOND })) && live(&trial.share) == 1)
}

// Whether the last one is.
fn loses_last(trial: &mut Trial) -> Result<bool, NoMemory> {
    let lost = loses(trial)?;
    Ok(matches!(lost, Some(LostAs::FailedNow)) && live(&trial.share) == 0)
}

/// Two instances.
const DUPLEXED: [Row; 3] = [
    Row(Step::Connect, 0),
    Row(Step::Store, 1),
    Row(Step::Duplex, 2),
];

// Whether both are lost as is told, and no third one.
fn loses_both(alloc: Global, trial: &mut Trial) -> Result<bool, NoMemory> {
    let duplexed = goes_as_told(alloc, trial, &DUPLEXED)?;
    let lost = loses_first(trial)? && loses_last(trial)?;
    let none = loses(trial)?;
    Ok(duplexed && lost && none.is_none())
}

// The same, and whether no engine is left.
fn loses_all(alloc: Global) -> Result<bool, NoMemory> {
    let mut trial = trial_of(alloc, &[], &[])?;
    let lost = loses_both(alloc, &mut trial)?;
    let ended = ends(trial);
    Ok(lost && ended)
}

#[test]
fn instances_that_are_told_as_lost(rt: HostRuntime) -> Result<(), Fail> {
    assert!(rt; loses_all(rt.alloc())?);
    Ok(())
}
