//! What the program does, and which words say so.
ghost use Rattle.std.specs.Prelude.{◌≡◌, ◌≢◌, ◌⊎◌, ◌↔◌, ℕ, Some, None, codes, string_bytes};
ghost use Rattle.plex_run.specs.Words.{number_said, Say};
ghost use Rattle.plex_run.specs.declared.way.Way.{Way};
ghost use Rattle.plex_run.specs.declared.way.Way.TheVariants as ways;
ghost use Rattle.plex_run.specs.declared.way.Work.TheVariants as works;

use plex_load::spell::{Rigour, number};

/// How a script is run.
#[derive(Clone, Copy, Debug, PartialEq, Eq)]
pub enum Way {
    /// Its lines one after another.
    InTurn,
    /// Each caller's lines on a thread of its own.
    OnThreads,
}

/// What the words ask for.
#[derive(Clone, Copy)]
pub enum Work {
    /// The script that comes in is run in this way.
    Script(Way),
    /// The script that this number makes is run on threads.
    Load(u32),
    /// The locks of the script that comes in are done in words.
    Locks,
    /// The report that comes in behind its script is checked.
    Check,
}

// What one word asks for.
fn work_of_word(word: &String) -> Option<Work>
    ensures in_turn { (result ≡ Some (works.Script ways.InTurn))
        ↔ (string_bytes word.now ≡ codes "serial") }
    ensures on_threads { (result ≡ Some (works.Script ways.OnThreads))
        ↔ (string_bytes word.now ≡ codes "threads") }
    ensures locks { (result ≡ Some works.Locks) ↔ (string_bytes word.now ≡ codes "locks") }
    ensures check { (result ≡ Some works.Check) ↔ (string_bytes word.now ≡ codes "check") }
    ensures no_load { (n : ℕ) → result ≢ Some (works.Load n) }
{
    if word.as_str() == "serial" {
        return Some(Work::Script(Way::InTurn));
    }
    if word.as_str() == "threads" {
        return Some(Work::Script(Way::OnThreads));
    }
    if word.as_str() == "locks" {
        return Some(Work::Locks);
    }
    if word.as_str() == "check" {
        return Some(Work::Check);
    }
    None
}

// What a word and one that says a number ask for.
fn work_of_two(word: &String, numeral: &String) -> Option<Work>
    ensures load { (n : ℕ) → (result ≡ Some (works.Load n))
        ↔ ((string_bytes word.now ≡ codes "load")
        × (number_said (string_bytes numeral.now) ≡ Some n)) }
    ensures no_script { (way : Way) → result ≢ Some (works.Script way) }
    ensures no_locks { result ≢ Some works.Locks }
    ensures no_check { result ≢ Some works.Check }
{
    if word.as_str() != "load" {
        return None;
    }
    match number(Rigour::Limits, numeral.as_bytes(), 0, u32::MAX) {
        Some(n) => Some(Work::Load(n)),
        None => None,
    }
}

/// What the words ask for, where they ask for anything.
pub(crate) fn work_of(words: &[String]) -> Option<Work>
    ensures in_turn { (result ≡ Some (works.Script ways.InTurn))
        ↔ Say words.now (works.Script ways.InTurn) }
    ensures on_threads { (result ≡ Some (works.Script ways.OnThreads))
        ↔ Say words.now (works.Script ways.OnThreads) }
    ensures load { (n : ℕ) → (result ≡ Some (works.Load n)) ↔ Say words.now (works.Load n) }
    ensures locks { (result ≡ Some works.Locks) ↔ Say words.now works.Locks }
    ensures check { (result ≡ Some works.Check) ↔ Say words.now works.Check }
{
    match words {
        [word] => work_of_word(word),
        [word, numeral] => work_of_two(word, numeral),
        _ => None,
    }
}
