// The steps on the word table: what each one tells its seat, and how views are cut and joined.
ghost use Rattle.std.specs.Prelude.{ℕ, List, []};
ghost use Rattle.vec_words.specs.View.{blank_view, first_view, made_one, next_pass, note_of, told_of, without_log, log_alone, with_log, stored_to, tested_of, committed_of, learned_of, Becomes};
ghost use Rattle.vec_words.specs.Rule.{Kept, Shows};

use crate::view::{Shape, View};
use atomic_table::{Join, Play, Split, TableRule};
use std::marker::{Brand, PhantomData};

// The rule of the words.
pub struct Law;

impl<D> TableRule<u8, View<D>, Shape> for Law {
    ghost holds = { Kept };

    ghost first = { first_view };
}

// Which indices a load tests.
pub trait Asked {
    ghost asked: { List ℕ };
}

impl Asked for Brand {
    ghost asked = { [] };
}

// Loads a vector word.
pub struct Look<A> {
    of: PhantomData<A>,
}

impl<D, A: Asked> Play<u8, View<D>> for Look<A> {
    ghost then = { λ s me found after. Becomes me (tested_of A.asked me.0 found) after };
}

// Which step a store logs.
pub trait Places {
    ghost word: { ℕ };

    ghost bits: { ℕ };

    ghost stamp: { ℕ };
}

impl Places for Brand {
    ghost word = { 0 };

    ghost bits = { 0 };

    ghost stamp = { 0 };
}

// Stores a vector word.
pub struct Put<P> {
    of: PhantomData<P>,
}

impl<D, P: Places> Play<u8, View<D>> for Put<P> {
    ghost then = { λ s me stored after. Becomes me (stored_to P.word P.bits P.stamp me.0) after };
}

// The data of the calls that a commit answers: one call's.
pub trait About<D> {
    ghost about: { List D };
}

impl<D> About<D> for Brand {
    ghost about = { [] };
}

// Stores the count.
pub struct Publish<A> {
    of: PhantomData<A>,
}

impl<D, A: About<D>> Play<u8, View<D>> for Publish<A> {
    ghost then = { λ s me number after. Becomes me (committed_of number A.about me.0) after };
}

// Loads the count.
pub struct Learn;

impl<D> Play<u8, View<D>> for Learn {
    ghost then = { λ s me count after. Becomes me (learned_of me.0 count) after
        × Shows me.0.len me.0 count };
}

// The engine's seat makes a pass.
pub struct NextPass;

impl<D> Split<View<D>> for NextPass {
    ghost left = { made_one };

    ghost right = { next_pass };
}

// A note of a pass, or a second note.
pub struct Tell;

impl<D> Split<View<D>> for Tell {
    ghost left = { λ v. v };

    ghost right = { note_of };
}

impl<D> Join<View<D>> for Tell {
    ghost both = { told_of };

    ghost spent = { blank_view };
}

// The log goes from seat to seat.
pub struct HandLog;

impl<D> Split<View<D>> for HandLog {
    ghost left = { without_log };

    ghost right = { log_alone };
}

impl<D> Join<View<D>> for HandLog {
    ghost both = { with_log };

    ghost spent = { blank_view };
}
