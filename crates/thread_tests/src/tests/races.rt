//! Tests of a bit that race with the calls that clear it.
ghost use Rattle.thread_tests.specs.Seats.{IsSeat, IsTrial};

use super::{FIRST, PLENTY, READS, Race, SECOND, WRITES, new_race};
use crate::halts::Halt;
use crate::past::{Answer, bits_after, counted, never_falls, tells};
use crate::seats::{read, test, write};
use crate::trial::Trial;
use crate::trials::{close, start_connected};
use crate::waits::{PATIENCE, raise, wait_for};
use plex_board::Desk;
use plex_board::links::Steady;
use plex_board::vectors::Tested;
use plex_engines::Board;
use std::alloc::{AllocFailed, Global};
use std::sync::Wait;
use std::test::Fail;
use std::thread::{Threads, join_mut};

// Writes again and again; each READ lets it go on for some writes.
fn write_again(
    rt: &impl Wait,
    alloc: Global,
    board: &Board<Steady>,
    desk: &mut Desk,
    race: &Race,
) -> Result<(), Halt>
    requires { IsSeat board.now desk.old }
    ensures { IsSeat board.now desk.new }
{
    for made in 0..READS * WRITES {
        wait_for(&race.reads, made / WRITES + 1)?;
        write(rt, alloc, board, desk)?;
    }
    Ok(())
}

// Puts down an answer, unless the last one was the same.
fn put_down(answers: &mut Vec<Answer>, answer: Answer) -> Result<(), AllocFailed<Answer>> {
    if answers.last() != Some(&answer) {
        answers.push(answer)?;
    }
    Ok(())
}

// Reads the page, and tests till the other's WRITE has cleared the bit.
fn read_till_cleared(
    rt: &impl Wait,
    alloc: Global,
    board: &Board<Steady>,
    desk: &mut Desk,
    race: &Race,
    answers: &mut Vec<Answer>,
) -> Result<(), Halt>
    requires { IsSeat board.now desk.old }
    ensures { IsSeat board.now desk.new }
{
    let sure = read(rt, alloc, board, desk)?;
    raise(&race.reads);
    for _ in 0..PATIENCE {
        let Tested { bit, at } = test(board, desk);
        put_down(answers, Answer { bit, at, sure })?;
        if !bit {
            return Ok(());
        }
    }
    Err(Halt::Late)
}

// Reads and tests again and again. It answers what the tests answered.
fn read_again(
    rt: &impl Wait,
    alloc: Global,
    board: &Board<Steady>,
    desk: &mut Desk,
    race: &Race,
) -> Result<Vec<Answer>, Halt>
    requires { IsSeat board.now desk.old }
    ensures { IsSeat board.now desk.new }
{
    let mut answers = Vec::new(alloc);
    for _ in 0..READS {
        read_till_cleared(rt, alloc, board, desk, race, &mut answers)?;
    }
    Ok(answers)
}

// The first connector writes while the second reads and tests.
fn race_in_two<R: Threads + Wait + Sync>(
    rt: &R,
    alloc: Global,
    trial: &mut Trial,
) -> (Result<(), Halt>, Result<Vec<Answer>, Halt>)
    requires { IsTrial trial.old }
    ensures { IsTrial trial.new }
{
    let race = &new_race();
    let Trial {
        board,
        first,
        second,
        ..
    } = trial;
    let board = &*board;
    join_mut(
        rt,
        &mut || write_again(rt, alloc, board, first, race),
        &mut || read_again(rt, alloc, board, second, race),
    )
}

#[test]
fn tests_race_with_writes(rt: HostRuntime) -> Result<(), Fail> {
    let alloc = rt.alloc();
    let mut trial = start_connected(&rt, alloc, PLENTY)?;
    let (wrote, answers) = race_in_two(&rt, alloc, &mut trial);
    let history = close(&rt, alloc, trial)?;
    wrote?;
    let answers = answers?;
    let entries = history.entries();
    assert!(rt; counted(entries, FIRST) == 1 + (READS * WRITES) as usize);
    assert!(rt; counted(entries, SECOND) == 1 + READS as usize);
    let bits = bits_after(alloc, entries, SECOND)?;
    for answer in &answers {
        assert!(rt; tells(&bits, *answer), "{answer:?}");
    }
    assert!(rt; never_falls(&answers));
    let cleared = answers.iter().filter(|answer| !answer.bit).count();
    assert!(rt; cleared == READS as usize);
    Ok(())
}
