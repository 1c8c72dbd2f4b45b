ghost use Rattle.std.specs.Prelude.{◌≡◌, IfOk};
ghost use Rattle.std.specs.Option.{option_copied};
ghost use Rattle.cf_types.specs.declared.shell_commands.ShellCmd.TheVariants.{Disconnect};
ghost use Rattle.plex_script.specs.Agent.{first_step, step_after, round_step, after_round, asks_behind, most_asks, shell_ask, asked_by};

use crate::copies::copy_ask;
use crate::scripts::{Act, AnyAsk};
use cf_types::{Kind, NoMemory, ShellCmd};
use engine_api::{Ask, Told};
use std::alloc::Global;

/// How many events one round takes at most.
pub const ROUND: u32 = 64;

/// How many asks one more RETRY brings at most: NEXT and RESPOND for each event of a round, and the call.
pub const ROUND_ASKS: u64 = 2 * ROUND as u64 + 1;

/// What a caller asks next in the work of one line.
#[derive(Clone, Copy, PartialEq, Eq)]
pub enum Step {
    /// The line's call; it may be asked so many times again.
    Call { asks: u32 },
    /// NEXT, and NEXT again so many times at most. Behind the round comes the line's call, which
    /// may be asked so many times again, or nothing.
    Next { left: u32, then: Option<u32> },
    /// RESPOND, and then NEXT so many times at most.
    Respond { left: u32, then: Option<u32> },
    /// Nothing more.
    Rest,
}

impl Step {
    /// What a line begins with.
    pub fn first(act: &Act, retry: u32) -> Step
        ensures { result ≡ first_step act.now retry }
    {
        match act {
            Act::Call(_) => Step::Call { asks: retry },
            Act::Events => Step::Next {
                left: ROUND - 1,
                then: None,
            },
            Act::Test(_) | Act::TestWord(_) | Act::Post | Act::Take => Step::Rest,
        }
    }

    /// How many asks are left at most.
    pub fn most_asks(self) -> u64
        ensures { result ≡ most_asks self }
    {
        match self {
            Step::Call { asks } => 1 + ROUND_ASKS * u64::from(asks),
            Step::Next { left, then } => 2 * u64::from(left) + 2 + asks_behind(then),
            Step::Respond { left, then } => 2 * u64::from(left) + 1 + asks_behind(then),
            Step::Rest => 0,
        }
    }

    /// What is asked of a structure of this kind, if anything; the line's call is copied.
    pub fn asked(
        self,
        alloc: Global,
        kind: Kind,
        line: Option<&AnyAsk>,
    ) -> Result<Option<AnyAsk>, NoMemory>
        ensures { IfOk result (λ asked. asked ≡ asked_by kind (option_copied line.entry) self) }
    {
        match self {
            Step::Call { .. } => copied(alloc, line),
            Step::Next { .. } => Ok(Some(common(kind, ShellCmd::Next))),
            Step::Respond { .. } => Ok(Some(common(kind, ShellCmd::Respond))),
            Step::Rest => Ok(None),
        }
    }

    /// What comes after a call of which this is told.
    pub fn after(self, told: &Told) -> Step
        ensures { result ≡ step_after self told.now }
    {
        match self {
            Step::Call { asks: 0 } => Step::Rest,
            Step::Call { asks } if told.again => Step::Next {
                left: ROUND - 1,
                then: Some(asks - 1),
            },
            Step::Call { .. } => Step::Rest,
            Step::Next { left, then } if told.owes => Step::Respond { left, then },
            Step::Next { left, then } if told.event => taking(left, then),
            Step::Next { then, .. } => after_round(then),
            Step::Respond { left, then } => taking(left, then),
            Step::Rest => Step::Rest,
        }
    }
}

// A copy of the line's call, if it has one.
fn copied(alloc: Global, line: Option<&AnyAsk>) -> Result<Option<AnyAsk>, NoMemory>
    ensures { IfOk result (λ copy. copy ≡ option_copied line.entry) }
{
    match line {
        None => Ok(None),
        Some(ask) => Ok(Some(copy_ask(alloc, ask)?)),
    }
}

// How many asks an event round is followed by at most.
fn asks_behind(then: Option<u32>) -> u64
    ensures { result ≡ asks_behind then }
{
    match then {
        None => 0,
        Some(asks) => 1 + ROUND_ASKS * u64::from(asks),
    }
}

/// A common command, asked of a structure of this kind.
pub(crate) fn common(kind: Kind, cmd: ShellCmd) -> AnyAsk
    ensures { result ≡ shell_ask kind cmd }
{
    match kind {
        Kind::Cache => AnyAsk::Cache(Ask::Shell(cmd)),
        Kind::List { .. } => AnyAsk::List(Ask::Shell(cmd)),
        Kind::Lock => AnyAsk::Lock(Ask::Shell(cmd)),
    }
}

/// The departure of a connector that has done its lines, from a structure of this kind.
pub fn closing_ask(kind: Kind) -> AnyAsk
    ensures { result ≡ shell_ask kind Disconnect }
{
    common(kind, ShellCmd::Disconnect)
}

// NEXT again, so many times at most.
fn taking(left: u32, then: Option<u32>) -> Step
    ensures { result ≡ round_step left then }
{
    match left {
        0 => after_round(then),
        _ => Step::Next {
            left: left - 1,
            then,
        },
    }
}

// What comes behind an event round.
fn after_round(then: Option<u32>) -> Step
    ensures { result ≡ after_round then }
{
    match then {
        None => Step::Rest,
        Some(asks) => Step::Call { asks },
    }
}
