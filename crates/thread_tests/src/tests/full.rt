//! Journals that get full: by one caller, and by two at once.
ghost use Rattle.thread_tests.specs.Seats.{IsSeat, IsTrial};

use super::{FIRST, SECOND};
use crate::halts::Halt;
use crate::past::counted;
use crate::seats::{connect, read, write};
use crate::trial::Trial;
use crate::trials::{close, start, start_connected};
use crate::waits::{raise, wait_for};
use plex_board::Desk;
use plex_board::cells::CallRefused;
use plex_board::links::Steady;
use plex_engines::Board;
use std::alloc::Global;
use std::sync::Wait;
use std::sync::atomic::AtomicU64;
use std::test::Fail;
use std::thread::{Threads, join_mut};

/// How many entries the journal takes.
const FULL: u32 = 300;

// How many writes were answered, and why the next one wasn't.
#[derive(Debug, Drop)]
struct Filled {
    answered: u32,
    refusal: CallRefused,
}

// Writes till a call isn't made. After its first write each caller waits for that of the other.
fn fill(
    rt: &impl Wait,
    alloc: Global,
    board: &Board<Steady>,
    desk: &mut Desk,
    begun: &AtomicU64,
) -> Result<Filled, Halt>
    requires { IsSeat board.now desk.old }
    ensures { IsSeat board.now desk.new }
{
    for answered in 0..FULL {
        match write(rt, alloc, board, desk) {
            Ok(_) => {}
            Err(Halt::Refused(refusal)) => return Ok(Filled { answered, refusal }),
            Err(halt) => return Err(halt),
        }
        if answered == 0 {
            raise(begun);
            wait_for(begun, 2)?;
        }
    }
    Err(Halt::Late)
}

// Both connectors write at once.
fn fill_in_two<R: Threads + Wait + Sync>(
    rt: &R,
    alloc: Global,
    trial: &mut Trial,
) -> (Result<Filled, Halt>, Result<Filled, Halt>)
    requires { IsTrial trial.old }
    ensures { IsTrial trial.new }
{
    let begun = &AtomicU64::new(0);
    let Trial {
        board,
        first,
        second,
        ..
    } = trial;
    let board = &*board;
    join_mut(
        rt,
        &mut || fill(rt, alloc, board, first, begun),
        &mut || fill(rt, alloc, board, second, begun),
    )
}

#[test]
fn journal_gets_full(rt: HostRuntime) -> Result<(), Fail> {
    let alloc = rt.alloc();
    let mut trial = start_connected(&rt, alloc, FULL)?;
    let (one, two) = fill_in_two(&rt, alloc, &mut trial);
    let history = close(&rt, alloc, trial)?;
    let one = one?;
    let two = two?;
    let entries = history.entries();
    assert!(rt; one.refusal == CallRefused::JournalFull { limit: FULL });
    assert!(rt; two.refusal == CallRefused::JournalFull { limit: FULL });
    assert!(rt; entries.len() == FULL as usize);
    assert!(rt; counted(entries, FIRST) == 1 + one.answered as usize);
    assert!(rt; counted(entries, SECOND) == 1 + two.answered as usize);
    assert!(rt; 2 + u64::from(one.answered) + u64::from(two.answered) == u64::from(FULL));
    Ok(())
}

// Three calls, and why there is no fourth.
fn call_four_times(
    rt: &impl Wait,
    alloc: Global,
    board: &Board<Steady>,
    desk: &mut Desk,
) -> Result<([u32; 3], Result<u32, Halt>), Halt>
    requires { IsSeat board.now desk.old }
    ensures { IsSeat board.now desk.new }
{
    let numbers = [
        connect(rt, alloc, board, desk)?,
        read(rt, alloc, board, desk)?,
        write(rt, alloc, board, desk)?,
    ];
    let fourth = write(rt, alloc, board, desk);
    Ok((numbers, fourth))
}

#[test]
fn fourth_call_finds_journal_full(rt: HostRuntime) -> Result<(), Fail> {
    let alloc = rt.alloc();
    let mut trial = start(&rt, alloc, 3)?;
    let (numbers, fourth) = call_four_times(&rt, alloc, &trial.board, &mut trial.first)?;
    let history = close(&rt, alloc, trial)?;
    assert!(rt; numbers == [1, 2, 3]);
    let full = Halt::Refused(CallRefused::JournalFull { limit: 3 });
    assert!(rt; fourth == Err(full));
    assert!(rt; history.entries().len() == 3);
    assert!(rt; counted(history.entries(), FIRST) == 3);
    Ok(())
}
