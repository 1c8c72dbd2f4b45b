ghost use Rattle.std.specs.Prelude.{◌≡◌, ◌<◌, ◌++◌, ℕ, [], ◌∷◌, IfSome, All, replicate};
ghost use Rattle.plex_board.specs.VecWords.Logged.{count_of};

use plex_board::types::ConnId;
use plex_board::vectors::{Changes, EngineSeat, Pass, Place, TestedWord, Vectors};
use std::hint::spin_loop;
use std::sync::Wait;
use std::sync::atomic::AtomicU64;
use std::sync::atomic::Ordering::SeqCst;
use std::test::Fail;
use std::thread::join;

const CALLS: u32 = 10_000;

// The bits that a call stores into each word of connector 1.
fn stored(word: u32, number: u32) -> u32 {
    match (word, number) {
        (_, 0) => 0,
        (0, n) => n,
        (_, n) => !n,
    }
}

// Takes the pass of the last caller that is left.
fn take_pass(vectors: &Vectors<u32>, passes: &mut Vec<Pass<u32>>) -> Option<Pass<u32>>
    requires { All (λ p. p.table ≡ vectors.now) passes.old.items }
    ensures rest { All (λ p. p.table ≡ vectors.now) passes.new.items }
    ensures pass { IfSome result (λ p. p.table ≡ vectors.now) }
{
    passes.pop()
}

// Waits until the count is at least this.
fn wait_for(rt: &impl Wait, count: &AtomicU64, least: u64) {
    for _ in rt.forever() {
        if count.load(SeqCst) >= least {
            return;
        }
        spin_loop();
    }
}

// One call, which stores both words.
fn make_call(vectors: &Vectors<u32>, seat: &mut EngineSeat<u32>, pass: &mut Pass<u32>, number: u32)
    requires form { (vectors.now.conns ≡ 1) × (vectors.now.len ≡ 64) }
    requires tokens { (seat.old.table ≡ vectors.now) × (pass.old.table ≡ vectors.now) }
    requires idle { (seat.old.number ≡ 0) × (count_of seat.old.log < number) }
    ensures tokens { (seat.new.table ≡ vectors.now) × (pass.new.table ≡ vectors.now) }
    ensures idle { (seat.new.number ≡ 0) × (count_of seat.new.log ≡ number) }
{
    vectors.begin(seat, number);
    vectors.store_word(seat, ConnId(1), 0, stored(0, number));
    vectors.store_word(seat, ConnId(1), 1, stored(1, number));
    vectors.commit_as(seat, pass, &number);
}

// What two threads count while they race: those that have begun, and the tests that found a store.
#[derive(Drop)]
struct Race {
    begun: AtomicU64,
    found: AtomicU64,
}

// All calls, for the operator. The first comes once both threads run, and the second half once the
// tester has found a store.
fn make_calls(
    rt: &impl Wait,
    race: &Race,
    vectors: &Vectors<u32>,
    mut seat: EngineSeat<u32>,
    mut pass: Pass<u32>,
) -> EngineSeat<u32>
    requires form { (vectors.now.conns ≡ 1) × (vectors.now.len ≡ 64) }
    requires tokens { (seat.table ≡ vectors.now) × (pass.table ≡ vectors.now) }
    requires idle { (seat.number ≡ 0) × (count_of seat.log ≡ 0) }
    ensures { result.table ≡ vectors.now }
{
    race.begun.fetch_add(1, SeqCst);
    wait_for(rt, &race.begun, 2);
    for made in 0..CALLS {
        if made == CALLS / 2 {
            wait_for(rt, &race.found, 1);
        }
        make_call(vectors, &mut seat, &mut pass, made + 1);
    }
    seat
}

// What a connector found: how many tests answered a number between the first and the last, and how
// many bits that never stood.
#[derive(Clone, Copy)]
struct Found {
    between: u32,
    wrong: u32,
}

// Tests both words until the last call shows.
fn test_words(
    rt: &impl Wait,
    race: &Race,
    vectors: &Vectors<u32>,
    mut pass: Pass<u32>,
) -> (Pass<u32>, Found)
    requires form { vectors.now.len ≡ 64 }
    requires pass { (pass.table ≡ vectors.now) × (0 < pass.owner) }
    ensures { result.0.table ≡ vectors.now }
{
    let mut between = 0u32;
    let mut wrong = 0u32;
    race.begun.fetch_add(1, SeqCst);
    wait_for(rt, &race.begun, 2);
    for _ in rt.forever() {
        let first = vectors.test_word(&mut pass, 0);
        let second = vectors.test_word(&mut pass, 1);
        if !stood(0, first) || !stood(1, second) || first.at > second.at {
            wrong = wrong.wrapping_add(1);
        }
        if first.at > 0 && first.at < CALLS {
            between = between.wrapping_add(1);
            race.found.store(1, SeqCst);
        }
        if first.at == CALLS {
            return (pass, Found { between, wrong });
        }
    }
    unreachable!()
}

// The bits stood in the word at the number, or just below it.
fn stood(word: u32, tested: TestedWord) -> bool {
    tested.bits == stored(word, tested.at)
        || (tested.at > 0 && tested.bits == stored(word, tested.at - 1))
}

#[test]
fn words_race(rt: HostRuntime) -> Result<(), Fail> {
    let (vectors, seat, mut passes) = Vectors::start(rt.alloc(), 1, 64)?;
    let tester = take_pass(&vectors, &mut passes).ok_or("no pass of connector 1")?;
    let operator = take_pass(&vectors, &mut passes).ok_or("no pass of the operator")?;
    assert!(rt; tester.owner() == ConnId(1));
    let race = &Race {
        begun: AtomicU64::new(0),
        found: AtomicU64::new(0),
    };
    let words = &vectors;
    let (mut seat, (mut tester, found)) = join(
        &rt,
        move || -> EngineSeat<u32>
            requires { (words.now.conns ≡ 1) × (words.now.len ≡ 64) × (seat.table ≡ words.now)
                × (operator.table ≡ words.now) × (seat.number ≡ 0) × (count_of seat.log ≡ 0) }
            ensures { result.table ≡ words.entry.now }
        { make_calls(&rt, race, words, seat, operator) },
        move || -> (Pass<u32>, Found)
            requires { (words.now.len ≡ 64) × (tester.table ≡ words.now) × (0 < tester.owner) }
            ensures { result.0.table ≡ words.entry.now }
        { test_words(&rt, race, words, tester) },
    );
    assert!(rt; found.wrong == 0 && found.between > 0);
    vectors.learn(&mut seat, &mut tester);
    assert!(rt; tester.known() == CALLS && tester.sure() == CALLS);
    Ok(())
}

// One word, named three times.
#[derive(Drop)]
struct Thrice;

impl Changes for Thrice {
    ghost places = { λ _. replicate 3 (record { conn = record { 0 = 1 }; word = 0 }) };

    ghost bits_in = { λ _ _ _. 9 };

    fn count(&self) -> usize {
        3
    }

    fn place(&self, _at: usize) -> Place {
        Place {
            conn: ConnId(1),
            word: 0,
        }
    }

    fn bits(&self, _place: Place) -> u32 {
        9
    }
}

#[test]
fn words_change(rt: HostRuntime) -> Result<(), Fail> {
    let (vectors, mut seat, mut passes) = Vectors::<(u32, bool)>::start(rt.alloc(), 1, 40)?;
    assert!(rt; passes.len() == 2);
    vectors.begin(&mut seat, 3);
    vectors.store_changed(&mut seat, &Thrice);
    vectors.commit_call(&mut seat, &mut passes[0], &7, &true);
    let found = vectors.test_word(&mut passes[1], 0);
    assert!(rt; found.bits == 9 && found.at == 3);
    assert!(rt; passes[1].sure() == 0);
    vectors.learn_all(&mut seat, passes.as_mut_slice());
    assert!(rt; passes[0].sure() == 3 && passes[1].sure() == 3);
    Ok(())
}

#[test]
fn words_notes(rt: HostRuntime) -> Result<(), Fail> {
    let (vectors, mut seat, mut passes) = Vectors::start(rt.alloc(), 2, 40)?;
    let mut second = take_pass(&vectors, &mut passes).ok_or("no pass of connector 2")?;
    let mut first = take_pass(&vectors, &mut passes).ok_or("no pass of connector 1")?;
    let mut operator = take_pass(&vectors, &mut passes).ok_or("no pass of the operator")?;
    assert!(rt; first.owner() == ConnId(1) && second.owner() == ConnId(2));

    // Call 1 sets indices 1 and 39 of connector 2's vector.
    vectors.begin(&mut seat, 1);
    vectors.store_word(&mut seat, ConnId(2), 0, 2);
    vectors.store_word(&mut seat, ConnId(2), 1, 128);
    vectors.commit(&mut seat, &mut operator);
    let set = vectors.test(&mut second, 1);
    assert!(rt; set.bit && set.at == 1);
    assert!(rt; second.known() == 1 && second.sure() == 0);
    let clear = vectors.test(&mut second, 0);
    assert!(rt; !clear.bit && clear.at == 1);
    let last = vectors.test(&mut second, 39);
    assert!(rt; last.bit && last.at == 1);

    // Call 4, of connector 1, stores no word. Connector 2 hears of it by a note.
    vectors.begin(&mut seat, 4);
    vectors.commit(&mut seat, &mut first);
    let mut note = vectors.tell(&mut first);
    assert!(rt; note.known() == 4 && note.sure() == 4);
    let copy = vectors.copy_note(&mut note);
    assert!(rt; vectors.told(&mut second, note) == 4);
    let set = vectors.test(&mut second, 1);
    assert!(rt; set.bit && set.at == 4);
    let word = vectors.test_word(&mut second, 1);
    assert!(rt; word.bits == 128 && word.at == 4);

    // Call 5 clears index 1, and nobody tells connector 2.
    vectors.begin(&mut seat, 5);
    vectors.store_word(&mut seat, ConnId(2), 0, 4);
    vectors.commit(&mut seat, &mut first);
    let again = vectors.test(&mut second, 1);
    assert!(rt; !again.bit && again.at == 5);

    // The operator knew number 1 alone. A copy of the note tells it the same.
    assert!(rt; operator.known() == 1 && operator.sure() == 1);
    assert!(rt; vectors.told(&mut operator, copy) == 4);
    vectors.learn(&mut seat, &mut second);
    assert!(rt; second.known() == 5 && second.sure() == 5);
    Ok(())
}
