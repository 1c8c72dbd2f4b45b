//! Notes that one caller posts and the other takes.
ghost use Rattle.thread_tests.specs.Seats.{IsSeat, IsTrial};

use super::{FIRST, PLENTY, READS, Race, SECOND, new_race};
use crate::halts::Halt;
use crate::past::{Answer, bits_after, is_of, tells};
use crate::seats::{post, read, take, test, write};
use crate::trial::Trial;
use crate::trials::{close, start_connected};
use crate::waits::{raise, wait_for};
use plex_board::Desk;
use plex_board::links::Steady;
use plex_board::vectors::Tested;
use plex_engines::Board;
use std::alloc::Global;
use std::sync::Wait;
use std::sync::atomic::Ordering::SeqCst;
use std::test::Fail;
use std::thread::{Threads, join_mut};

// A number that was posted, and the test after it was taken.
#[derive(Clone, Copy, Debug)]
struct Heard {
    posted: u64,
    answer: Answer,
}

// After each READ of the other's, writes and posts, and then writes once more.
fn write_and_post(
    rt: &impl Wait,
    alloc: Global,
    board: &Board<Steady>,
    desk: &mut Desk,
    race: &Race,
) -> Result<(), Halt>
    requires { IsSeat board.now desk.old }
    ensures { IsSeat board.now desk.new }
{
    for round in 0..READS {
        wait_for(&race.reads, round + 1)?;
        write(rt, alloc, board, desk)?;
        let number = post(rt, board, desk);
        race.posted.store(u64::from(number), SeqCst);
        write(rt, alloc, board, desk)?;
    }
    Ok(())
}

// Reads the page, takes what is posted after that, and tests.
fn read_and_take(
    rt: &impl Wait,
    alloc: Global,
    board: &Board<Steady>,
    desk: &mut Desk,
    race: &Race,
) -> Result<Heard, Halt>
    requires { IsSeat board.now desk.old }
    ensures { IsSeat board.now desk.new }
{
    let own = read(rt, alloc, board, desk)?;
    raise(&race.reads);
    let posted = wait_for(&race.posted, u64::from(own) + 1)?;
    let sure = take(rt, board, desk);
    let Tested { bit, at } = test(board, desk);
    Ok(Heard {
        posted,
        answer: Answer { bit, at, sure },
    })
}

// Reads, takes and tests again and again. It answers what it heard.
fn take_again(
    rt: &impl Wait,
    alloc: Global,
    board: &Board<Steady>,
    desk: &mut Desk,
    race: &Race,
) -> Result<Vec<Heard>, Halt>
    requires { IsSeat board.now desk.old }
    ensures { IsSeat board.now desk.new }
{
    let mut heard = Vec::new(alloc);
    for _ in 0..READS {
        heard.push(read_and_take(rt, alloc, board, desk, race)?)?;
    }
    Ok(heard)
}

// The first connector writes and posts while the second reads, takes and tests.
fn post_in_two<R: Threads + Wait + Sync>(
    rt: &R,
    alloc: Global,
    trial: &mut Trial,
) -> (Result<(), Halt>, Result<Vec<Heard>, Halt>)
    requires { IsTrial trial.old }
    ensures { IsTrial trial.new }
{
    let race = &new_race();
    let Trial {
        board,
        first,
        second,
        ..
    } = trial;
    let board = &*board;
    join_mut(
        rt,
        &mut || write_and_post(rt, alloc, board, first, race),
        &mut || take_again(rt, alloc, board, second, race),
    )
}

#[test]
fn a_note_tells_of_a_write(rt: HostRuntime) -> Result<(), Fail> {
    let alloc = rt.alloc();
    let mut trial = start_connected(&rt, alloc, PLENTY)?;
    let (wrote, heard) = post_in_two(&rt, alloc, &mut trial);
    let history = close(&rt, alloc, trial)?;
    wrote?;
    let heard = heard?;
    let entries = history.entries();
    let bits = bits_after(alloc, entries, SECOND)?;
    assert!(rt; heard.len() == READS as usize);
    for Heard { posted, answer } in &heard {
        let Answer { bit, at, sure } = *answer;
        assert!(rt;
            !bit && *posted <= u64::from(sure) && sure <= at,
            "{answer:?}"
        );
        assert!(rt; tells(&bits, *answer), "{answer:?}");
        assert!(rt; is_of(entries, sure, FIRST), "{answer:?}");
    }
    Ok(())
}
