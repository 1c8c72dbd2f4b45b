//! The lines that lock words can do.
ghost use Rattle.std.specs.Prelude.{◌≡◌, ◌++◌, OnOk, IfOk, find, option_map};
ghost use Rattle.plex_script.specs.CfTypes.Forms.{is_lock};
ghost use Rattle.std.specs.List.{filter_map};
ghost use Rattle.plex_locks.specs.Requests.{request_in, request_of_ask, request_of_act, request_of, task_by, tasks_by, is_other, other_line};

use plex_script::api::Ask;
use plex_script::types::{ConnId, Kind, LockCmd, NoMemory, Resource};
use plex_script::{Act, AnyAsk, Line};
use std::alloc::Global;

/// What a line asks of a lock word.
#[derive(Clone, Copy, Debug, PartialEq, Eq)]
pub enum Request {
    /// OBTAIN: a lock on the resource, exclusively or shared.
    Obtain { r: Resource, excl: bool },
    /// RELEASE: the resource's lock is given back.
    Release { r: Resource },
}

/// A request, with the number of its line in the script's text.
#[derive(Clone, Copy, Debug, PartialEq, Eq)]
pub struct Task {
    pub line: u32,
    pub request: Request,
}

// What a command asks of a lock word: record data isn't kept there.
fn request_in(cmd: &LockCmd) -> Option<Request>
    ensures { result ≡ request_in cmd.now }
{
    match cmd {
        LockCmd::Obtain { r, excl, rec: None } => Some(Request::Obtain { r: *r, excl: *excl }),
        LockCmd::Release { r } => Some(Request::Release { r: *r }),
        _ => None,
    }
}

fn request_of_ask(ask: &AnyAsk) -> Option<Request>
    ensures { result ≡ request_of_ask ask.now }
{
    match ask {
        AnyAsk::Lock(Ask::Content(cmd)) => request_in(cmd),
        _ => None,
    }
}

fn request_of_act(act: &Act) -> Option<Request>
    ensures { result ≡ request_of_act act.now }
{
    match act {
        Act::Call(ask) => request_of_ask(ask),
        _ => None,
    }
}

/// What a line asks of a lock word, where it asks nothing else, and isn't to be asked again.
pub(crate) fn request_of(line: &Line) -> Option<Request>
    ensures { result ≡ request_of line.now }
{
    if line.retry == 0 {
        request_of_act(&line.act)
    } else {
        None
    }
}

// What a line asks, where it is this caller's.
fn task_by(by: ConnId, line: &Line) -> Option<Task>
    ensures { result ≡ task_by by line.now }
{
    if line.by.0 != by.0 {
        return None;
    }
    match request_of(line) {
        Some(request) => Some(Task {
            line: line.at,
            request,
        }),
        None => None,
    }
}

/// What a caller's lines ask, one after another.
pub(crate) fn tasks_by(alloc: Global, by: ConnId, lines: &[Line]) -> Result<Vec<Task>, NoMemory>
    ensures { IfOk result (λ tasks. tasks.items ≡ tasks_by by lines.now) }
{
    let mut tasks = Vec::new(alloc);
    for line in lines {
        if let Some(task) = task_by(by, line) {
            tasks.push(task)?;
        }
    }
    Ok(tasks)
}

// Whether a line asks something else.
fn is_other(line: &Line) -> bool
    ensures { result ≡ is_other line.now }
{
    request_of(line).is_none()
}

/// The number of the first line of callers that asks something else.
pub(crate) fn other_line(lines: &[Line]) -> Option<u32>
    ensures { result ≡ other_line lines.now }
{
    for line in lines {
        if is_other(line) {
            return Some(line.at);
        }
    }
    None
}
