//! The calls of a line.
ghost use Rattle.std.specs.Prelude.{◌≡◌, ◌≢◌, ◌<◌, ◌≤◌, ◌↔◌, IsTrue, IfSome, IfOk, IfErr, length};
ghost use Rattle.std.specs.Option.{option_copied};
ghost use Rattle.plex_board.specs.CfTypes.NoMemory.Wants.{want};
ghost use Rattle.plex_board.specs.StructCell.declared.refused.CallRefused.TheVariants as refused;
ghost use Rattle.plex_board.specs.PlexScript.declared.agents.Step.TheVariants as step;
ghost use Rattle.plex_board.specs.PlexScript.declared.transcripts.AgentEnd.TheVariants as ended;
ghost use Rattle.plex_board.specs.Desks.{pass_at, IsLaterOn};
ghost use Rattle.plex_board.specs.Boards.{IsDeskOf, cell_on};
ghost use Rattle.plex_board.specs.Turns.{Asks};
ghost use Rattle.plex_board.specs.PlexScript.Agent.{IsReady};
ghost use Rattle.plex_agent.specs.Calls.{IsAskable, IsAsked, at_work, end_of};

use crate::items::reserve_item;
use plex_board::Desk;
use plex_board::cells::CallRefused;
use plex_board::links::Link;
use plex_board::scripts::{AgentEnd, AnyAsk, Shown, Step};
use plex_board::types::StrNo;
use plex_engines::Board;
use std::alloc::Global;
use std::sync::Wait;

/// What a line asks of a structure: its call, where it is one.
#[derive(Clone, Copy)]
pub(crate) struct LineCall<'a> {
    pub on: StrNo,
    pub ask: Option<&'a AnyAsk>,
}

// Whether anything is left to ask.
fn asks(now: Step) -> bool
    ensures { IsTrue result ↔ now ≢ step.Rest }
{
    !matches!(now, Step::Rest)
}

// How a caller's work ends where its call to a structure wasn't made.
fn end_of(on: StrNo, refusal: CallRefused) -> AgentEnd
    ensures { result ≡ end_of on refusal }
{
    match refusal {
        CallRefused::JournalFull { .. } => AgentEnd::JournalFull { on },
        CallRefused::NoMemory(cause) => AgentEnd::NoMemory(cause),
    }
}

// The call of a step, shown by its number; the step behind it. Where there is no memory for the
// item or for the copy of the line's call, the call isn't made.
fn ask_step<L: Link>(
    rt: &impl Wait,
    alloc: Global,
    board: &Board<L>,
    call: &LineCall<'_>,
    now: Step,
    desk: &mut Desk,
    items: &mut Vec<Shown>,
) -> Result<Step, CallRefused>
    requires desk { IsDeskOf board.now desk.old }
    requires place { call.now.on.0 < length board.now.cells }
    requires may { IfSome (cell_on board.now call.now.on)
        (IsAskable (option_copied call.now.ask) desk.old.owner) }
    requires ready { IsReady (option_copied call.now.ask) now }
    requires goes { now ≢ step.Rest }
    ensures asked { IfOk result (λ next. IfSome (cell_on board.now call.now.on)
        (λ cell. IsAsked cell.form.kind (option_copied call.now.ask) call.now.on now next
        (at_work desk.old items.old.items ended.Done)
        (at_work desk.new items.new.items ended.Done))) }
    ensures refused { IfErr result (λ _. IsLaterOn call.now.on desk.old desk.new) }
    ensures no_memory { IfErr result (λ refusal. refusal ≡ refused.NoMemory want
        → desk.new ≡ desk.old) }
    ensures full { IfErr result (λ refusal. refusal ≢ refused.NoMemory want
        → IfSome (cell_on board.now call.now.on)
        (λ cell. cell.limit ≤ (pass_at desk.new call.now.on).known)) }
    ensures items { IfErr result (λ _. items.new.items ≡ items.old.items) }
    ensures of_board { IsDeskOf board.now desk.new }
{
    let on = call.on;
    let kind = board.kind(on);
    reserve_item(items)?;
    let Some(ask) = now.asked(alloc, kind, call.ask)? else {
        return Ok(Step::Rest);
    };
    let told = board.call(rt, alloc, desk, on, ask)?;
    items.push_reserved(Shown::Call { on, no: told.no });
    Ok(now.after(&told))
}

/// Makes the calls of a line at a structure, from its first step on, till nothing is left to ask.
/// Each answered call is shown by its number. A full journal, or want of memory, ends the caller's
/// work.
pub(crate) fn ask_all<L: Link>(
    rt: &impl Wait,
    alloc: Global,
    board: &Board<L>,
    call: &LineCall<'_>,
    first: Step,
    desk: &mut Desk,
    items: &mut Vec<Shown>,
) -> AgentEnd
    requires desk { IsDeskOf board.now desk.old }
    requires place { call.now.on.0 < length board.now.cells }
    requires may { IfSome (cell_on board.now call.now.on)
        (IsAskable (option_copied call.now.ask) desk.old.owner) }
    requires ready { IsReady (option_copied call.now.ask) first }
    ensures asks { IfSome (cell_on board.now call.now.on)
        (λ cell. Asks cell.limit cell.form.kind (option_copied call.now.ask) call.now.on first
        (at_work desk.old items.old.items ended.Done)
        (at_work desk.new items.new.items result)) }
    ensures of_board { IsDeskOf board.now desk.new }
    ensures owner { desk.new.owner ≡ desk.old.owner }
{
    let mut now = first;
    while asks(now) {
        match ask_step(rt, alloc, board, call, now, desk, items) {
            Ok(next) => now = next,
            Err(refusal) => {
                desk.ordered(call.on);
                return end_of(call.on, refusal);
            }
        }
    }
    AgentEnd::Done
}
