use plex_board::worlds::{NoMemory, Step, World, run};
use std::alloc::Global;
use std::test::Fail;

/// What is expected of the world that some steps make of two words and two passes.
#[derive(Clone, Copy)]
struct Expected<'a> {
    words: &'a [u64],
    count: u32,
    flying: u32,
    known: &'a [u32],
    notes: &'a [u32],
    logged: &'a [Step],
}

// Whether a world is as expected.
fn is_world(world: World, expected: &Expected<'_>) -> bool {
    world.words.as_slice() == expected.words
        && world.count == expected.count
        && world.flying == expected.flying
        && world.known.as_slice() == expected.known
        && world.notes.as_slice() == expected.notes
        && world.notes.is_empty() == expected.notes.is_empty()
        && world.log.into_vec().as_slice() == expected.logged
}

// Whether these steps make the world that is expected.
fn makes(alloc: Global, steps: &[Step], expected: Expected<'_>) -> Result<bool, NoMemory> {
    let world = run(alloc, 2, 2, steps)?;
    Ok(is_world(world, &expected))
}

fn store(word: u32, bits: u32, stamp: u32) -> Step {
    Step::Store { word, bits, stamp }
}

fn load(pass: u8, word: u32) -> Step {
    Step::Load { pass, word }
}

#[test]
fn no_step_makes_nothing(rt: HostRuntime) -> Result<(), Fail> {
    let made = makes(
        rt.alloc(),
        &[],
        Expected {
            words: &[0, 0],
            count: 0,
            flying: 0,
            known: &[0, 0],
            notes: &[],
            logged: &[],
        },
    )?;
    assert!(rt; made);
    Ok(())
}

// Pass 0 loads both words while change 2 has stored into word 0 alone: it knows 2, and finds the
// bits of change 1 in word 1.
#[test]
fn a_torn_change_is_known(rt: HostRuntime) -> Result<(), Fail> {
    let one = Step::Commit { number: 1 };
    let two = Step::Commit { number: 2 };
    let torn = [
        store(0, 1, 1),
        one,
        store(0, 0, 2),
        load(0, 0),
        load(0, 1),
        store(1, 5, 2),
        two,
        Step::LoadCount { pass: 1 },
        // too late: 2 is committed
        store(0, 3, 2),
    ];
    for steps in [&torn[..8], &torn[..9]] {
        let made = makes(
            rt.alloc(),
            steps,
            Expected {
                words: &[0x2_0000_0000, 0x2_0000_0005],
                count: 2,
                flying: 0,
                known: &[2, 2],
                notes: &[],
                logged: &[torn[0], one, torn[2], torn[5], two],
            },
        )?;
        assert!(rt; made);
    }
    Ok(())
}

#[test]
fn a_note_carries_what_is_known(rt: HostRuntime) -> Result<(), Fail> {
    let made = makes(
        rt.alloc(),
        &[
            store(0, 1, 1),
            load(0, 0),
            Step::Split { pass: 0 },
            Step::Join { into: 1 },
        ],
        Expected {
            words: &[0x1_0000_0001, 0],
            count: 0,
            flying: 1,
            known: &[1, 1],
            notes: &[],
            logged: &[store(0, 1, 1)],
        },
    )?;
    assert!(rt; made);
    Ok(())
}

#[test]
fn a_load_stands_between_two_stores(rt: HostRuntime) -> Result<(), Fail> {
    let made = makes(
        rt.alloc(),
        &[store(0, 1, 1), load(0, 0), store(1, 7, 1)],
        Expected {
            words: &[0x1_0000_0001, 0x1_0000_0007],
            count: 0,
            flying: 1,
            known: &[1, 0],
            notes: &[],
            logged: &[store(0, 1, 1), store(1, 7, 1)],
        },
    )?;
    assert!(rt; made);
    Ok(())
}
