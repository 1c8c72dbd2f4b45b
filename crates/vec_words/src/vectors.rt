//! The word table.
ghost use Rattle.std.specs.Prelude.{◌≡◌, ◌+◌, ◌*◌, ◌^◌, ◌<◌, ◌≤◌, ◌++◌, ℕ, [], ◌∷◌, map, IfOk, true};
ghost use Rattle.std.specs.List.{range_with_len};
ghost use Rattle.vec_world.specs.Log.{HasStore};
ghost use Rattle.vec_words.specs.declared.logged.Logged.TheVariants.{Stored};
ghost use Rattle.vec_words.specs.Logged.{words_of, word_number, steps_of, count_of, IsOrderly};
ghost use Rattle.vec_words.specs.Tokens.{new_pass, IsBegun, IsFirst};
ghost use Rattle.vec_words.specs.View.{first_view, stored_to, Becomes};

use crate::pass::Pass;
use crate::plays::{Law, NextPass, Places, Put};
use crate::seat::EngineSeat;
use crate::view::{Shape, View};
use atomic_table::{Seat, Table};
use cf_types::{ConnId, NoMemory};
use std::alloc::{AllocError, Global};
use std::marker::{Brand, Model};
use vec_world::word_of;

/// The words of all connectors' vectors, with the number that was committed last. Threads share it
/// by `&`. `D` is the data of one answered call. It is never stored.
pub struct Vectors<D> {
    conns: u8,
    pub(crate) len: u32,
    // The words of one connector's vector.
    pub(crate) span: usize,
    pub(crate) table: Table<u8, View<D>, Shape, Law, Global>,
}

impl<D> Model for Vectors<D> {
    ghost use Rattle.vec_words.specs.Tokens.{WordTable, IsVectors};

    ghost Value = { WordTable };

    ghost view = { λ t. record { id = t.table.shared.table_id; conns = t.conns; len = t.len } };

    ghost invariant = { λ t. IsVectors t.conns t.len t.span t.table.shared.key
        t.table.shared.table_id };
}

impl<D> Drop for Vectors<D> {
    fn drop(self) {
        let Vectors {
            conns: _,
            len: _,
            span: _,
            table: _,
        } = self;
    }
}

impl<D> Vectors<D> {
    /// Makes a table of vectors of `len` bits for connectors 1 to `conns`, all 0, with the engine's
    /// seat and one pass for each caller from the operator, 0, on (IXLVECTR CREATE for each
    /// connector). The only error is that there was no memory.
    pub fn start(
        alloc: Global,
        conns: u8,
        len: u32,
    ) -> Result<(Vectors<D>, EngineSeat<D>, Vec<Pass<D>>), NoMemory>
        ensures form { IfOk result (λ r. (r.0.conns ≡ conns) × (r.0.len ≡ len)) }
        ensures seat { IfOk result (λ r. r.1 ≡ record { table = r.0; number = 0; log = [] }) }
        ensures passes { IfOk result (λ r. r.2.items ≡ map (new_pass r.0)
            (range_with_len 0 (conns + 1))) }
    {
        let (vectors, mut seat) = Vectors::lay(alloc, conns, len)?;
        let passes = vectors.passes(alloc, &mut seat)?;
        Ok((vectors, EngineSeat { number: 0, seat }, passes))
    }

    /// The words, with the table's first seat.
    fn lay(
        alloc: Global,
        conns: u8,
        len: u32,
    ) -> Result<(Vectors<D>, Seat<u8, View<D>>), AllocError>
        ensures form { IfOk result (λ r. (r.0.conns ≡ conns) × (r.0.len ≡ len)) }
        ensures seat { IfOk result (λ r. (r.1.table_id ≡ r.0.id)
            × (r.1.me ≡ (first_view (record { conns = conns; len = len }), []))) }
    {
        let shape = Shape { conns, len };
        let span = (len as usize + 31) / 32;
        let words = vec![in alloc; 0u64; 1 + usize::from(conns) * span]?;
        let (table, seat) = Table::of_words(alloc, words.as_slice(), &shape)?;
        let vectors = Vectors {
            conns,
            len,
            span,
            table,
        };
        Ok((vectors, seat))
    }

    /// One pass for each caller, in their order.
    fn passes(
        &self,
        alloc: Global,
        seat: &mut Seat<u8, View<D>>,
    ) -> Result<Vec<Pass<D>>, AllocError>
        requires { IsFirst self.now seat.old 0 }
        ensures passes { IfOk result (λ v. v.items ≡ map (new_pass self.now)
            (range_with_len 0 (self.now.conns + 1))) }
        ensures seat { IfOk result (λ v. IsFirst self.now seat.new (self.now.conns + 1)) }
    {
        let count = usize::from(self.conns) + 1;
        let mut passes = Vec::with_capacity(alloc, count)?;
        for number in 0..count {
            let pass = self.next_pass(seat, number as u8);
            passes.push(pass)?;
        }
        Ok(passes)
    }

    /// The pass of the next caller.
    #[tactic(auto, using(crate::proofs::Steps::splits_pass))]
    fn next_pass(&self, seat: &mut Seat<u8, View<D>>, owner: u8) -> Pass<D>
        requires first { IsFirst self.now seat.old owner }
        requires owner { owner ≤ self.now.conns }
        ensures pass { result ≡ new_pass self.now owner }
        ensures seat { IsFirst self.now seat.new (owner + 1) }
    {
        let pass = self.table.shared.split_seat::<NextPass>(seat);
        Pass {
            owner: ConnId(owner),
            known: 0,
            sure: 0,
            seat: pass,
        }
    }

    /// Sets the number that the engine's stores, and then its commit, carry. It is above the number
    /// that was committed last, and nothing is in flight.
    pub fn begin(&self, seat: &mut EngineSeat<D>, number: u32)
        requires table { seat.old.table ≡ self.now }
        requires idle { seat.old.number ≡ 0 }
        requires above { count_of seat.old.log < number }
        ensures seat { seat.new ≡ record seat.old { number = number } }
        ensures fresh { (word : ℕ) → ¬ HasStore (steps_of seat.new.log) word seat.new.number }
        ensures log { IsOrderly seat.new.log seat.new.number }
    {
        let _ = self;
        seat.number = number;
    }

    /// Stores 32 bits of a connector's vector, under the number in flight. A word is stored at most
    /// once under one number.
    pub fn store_word(&self, seat: &mut EngineSeat<D>, conn: ConnId, word: u32, bits: u32)
        requires table { seat.old.table ≡ self.now }
        requires begun { 0 < seat.old.number }
        requires conn { (0 < conn.0) × (conn.0 ≤ self.now.conns) }
        requires word { word < words_of self.now.len }
        requires once { ¬ HasStore (steps_of seat.old.log)
            (word_number self.now.len conn.0 word) seat.old.number }
        ensures { seat.new ≡ record seat.old {
          log = seat.old.log ++ Stored
              (word_number self.now.len conn.0 word) bits seat.old.number ∷ [];
        } }
    {
        let at = self.word_number(conn.0, word);
        self.put::<Brand>(&mut seat.seat, at, bits, seat.number);
    }

    /// The number of a word of a connector's vector among all words.
    #[tactic(auto, using(crate::proofs::Places::number_is, crate::proofs::Places::few, crate::proofs::Places::within_all))]
    pub(crate) fn word_number(&self, conn: u8, word: u32) -> usize
        requires conn { (0 < conn) × (conn ≤ self.now.conns) }
        requires word { word < words_of self.now.len }
        ensures number { result ≡ word_number self.now.len conn word }
        ensures within { result < self.now.conns * words_of self.now.len }
        ensures small { result < 2 ^ 40 }
    {
        usize::from(conn - 1) * self.span + word as usize
    }

    /// Stores a word of the table.
    fn put<P: Places>(&self, seat: &mut Seat<u8, View<D>>, word: usize, bits: u32, stamp: u32)
        requires table { seat.old.table_id ≡ self.now.id }
        requires log { seat.old.me.0.keeps ≡ true }
        requires step { (word ≡ P.word) × (bits ≡ P.bits) × (stamp ≡ P.stamp) }
        requires word { (P.word < self.now.conns * words_of self.now.len) × (P.word < 2 ^ 40) }
        requires stamp { IsBegun P.stamp seat.old.me.0.log × (0 < P.stamp) }
        requires once { ¬ HasStore (steps_of seat.old.me.0.log) P.word P.stamp }
        ensures table { seat.new.table_id ≡ seat.old.table_id }
        ensures view { Becomes seat.old.me (stored_to P.word P.bits P.stamp seat.old.me.0)
            seat.new.me }
    {
        self.table
            .shared
            .store::<Put<P>>(seat, 1 + word, word_of(bits, stamp));
    }
}
