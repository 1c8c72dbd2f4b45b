// The rule of the lock's table, and what each step on its word tells.
ghost use Rattle.std.specs.Prelude.{◌≡◌, None};
ghost use Rattle.cf_turn.specs.Turns.{Kept, stand_waiting, stand_spent, without_turns, both, Starts, Tries};

use crate::keeps::Keeps;
use atomic_table::{Join, Play, Split, TableRule};
use std::marker::PhantomData;
use std::snapshot::Snapshot;

/// What a seat at the lock knows. No value of it is made.
pub struct Stand<K> {
    /// How many turns the seat has: 1 while it has the value, else 0.
    pub turns: u64,
    /// The lock's key, which every seat knows but one that another took in.
    pub key: Option<K>,
}

/// The lock's rule.
pub struct Turns<F> {
    of: PhantomData<F>,
}

impl<F: Keeps> TableRule<Option<F::Value>, Stand<F::Key>, Snapshot<F::Value>> for Turns<F> {
    ghost holds = { λ start. Kept F.stands (F.key_of start.value) };

    ghost first = { λ start. stand_waiting (F.key_of start.value) };
}

/// A seat is made, with no turn.
pub struct Start;

impl<V, K> Play<Option<V>, Stand<K>> for Start {
    ghost then = { Starts };
}

/// The turn is tried for.
pub struct Try<F> {
    of: PhantomData<F>,
}

impl<F: Keeps> Play<Option<F::Value>, Stand<F::Key>> for Try<F> {
    ghost then = { Tries F.stands };
}

/// The turn is given back.
pub struct Back;

impl<V, K> Play<Option<V>, Stand<K>> for Back {
    ghost then = { λ _ _ _ after. after.0.turns ≡ 0 };
}

/// The turns of two seats in one hand, which can't be.
pub struct Two;

impl<K> Split<Stand<K>> for Two {
    ghost left = { without_turns };

    ghost right = { λ v. v };
}

impl<K> Join<Stand<K>> for Two {
    ghost both = { both };

    ghost spent = { stand_spent };
}

impl<V, K> Play<Option<V>, Stand<K>> for Two {
    ghost then = { λ _ _ _ _. ⊥ };
}
