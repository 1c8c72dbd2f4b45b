//! A gate at which callers wait for one another, and which counts lines. No caller waits for ever: the
//! gate tells how many waits ended well.
use plex_run::agents::Gate;
use plex_run::types::ConnId;
use std::alloc::{AllocError, Global};
use std::hint::spin_loop;
use std::sync::atomic::AtomicU64;
use std::sync::atomic::Ordering::SeqCst;

/// How many turns a caller waits before it goes on in vain.
const PATIENCE: u64 = 500_000_000;

/// What one thread tells others, once.
#[derive(Drop)]
struct Flag {
    raised: AtomicU64,
}

impl Flag {
    // A flag that isn't raised.
    fn new() -> Flag {
        Flag {
            raised: AtomicU64::new(0),
        }
    }

    fn raise(&self) {
        self.raised.store(1, SeqCst);
    }

    // Waits until the flag is raised, and tells whether it was.
    fn wait(&self) -> bool {
        for _ in 0..PATIENCE {
            if self.raised.load(SeqCst) > 0 {
                return true;
            }
            spin_loop();
        }
        false
    }
}

/// A line of a script: who gives it, and its number in the script's text, from 1.
#[derive(Clone, Copy, PartialEq, Eq)]
pub(super) struct LineOf(pub(super) ConnId, pub(super) u32);

/// How far a line is for which another one waits.
#[derive(Clone, Copy, PartialEq, Eq)]
enum Stage {
    Come,
    Done,
}

/// A line that begins once another has come, or has been done.
#[derive(Drop)]
pub(super) struct Hold {
    held: LineOf,
    until: LineOf,
    stage: Stage,
    reached: Flag,
}

impl Hold {
    /// The first line begins once the second has been done.
    pub(super) fn new(held: LineOf, until: LineOf) -> Hold {
        Hold {
            held,
            until,
            stage: Stage::Done,
            reached: Flag::new(),
        }
    }

    // The first line begins once the second has come.
    fn meeting(held: LineOf, until: LineOf) -> Hold {
        Hold {
            held,
            until,
            stage: Stage::Come,
            reached: Flag::new(),
        }
    }

    // A line is so far.
    fn tell(&self, line: LineOf, stage: Stage) {
        if self.until == line && self.stage == stage {
            self.reached.raise();
        }
    }

    // Whether this line waited, and not in vain.
    fn keeps(&self, line: LineOf) -> bool {
        self.held == line && self.reached.wait()
    }
}

/// Lines of several callers, each of which begins once all of them have come.
pub(super) fn at_once(alloc: Global, lines: &[LineOf]) -> Result<Vec<Hold>, AllocError> {
    let mut holds = Vec::new(alloc);
    for held in lines {
        for until in lines {
            if held != until {
                holds.push(Hold::meeting(*held, *until))?;
            }
        }
    }
    Ok(holds)
}

/// Lines of several callers, each of which begins once the one before it has been done.
pub(super) fn in_order(alloc: Global, lines: &[LineOf]) -> Result<Vec<Hold>, AllocError> {
    let mut holds = Vec::new(alloc);
    for k in 1..lines.len() {
        holds.push(Hold::new(lines[k], lines[k - 1]))?;
    }
    Ok(holds)
}

/// A gate that holds lines up.
#[derive(Drop)]
pub(super) struct Turns<'a> {
    holds: &'a [Hold],
    kept: AtomicU64,
    lines: AtomicU64,
}

impl<'a> Turns<'a> {
    /// A gate that keeps these, to which no line has come.
    pub(super) fn new(holds: &'a [Hold]) -> Turns<'a> {
        Turns {
            holds,
            kept: AtomicU64::new(0),
            lines: AtomicU64::new(0),
        }
    }

    /// Whether every line that was held waited, and not in vain.
    pub(super) fn is_kept(&self) -> bool {
        self.kept.load(SeqCst) == self.holds.len() as u64
    }

    /// How many lines have come.
    pub(super) fn lines(&self) -> u64 {
        self.lines.load(SeqCst)
    }
}

impl<'a> Gate for Turns<'a> {
    fn before(&self, who: ConnId, line: u32) {
        self.lines.fetch_add(1, SeqCst);
        for hold in self.holds {
            hold.tell(LineOf(who, line), Stage::Come);
        }
        for hold in self.holds {
            if hold.keeps(LineOf(who, line)) {
                self.kept.fetch_add(1, SeqCst);
            }
        }
    }

    fn after(&self, who: ConnId, line: u32) {
        for hold in self.holds {
            hold.tell(LineOf(who, line), Stage::Done);
        }
    }
}
