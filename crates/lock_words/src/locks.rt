//! The lock words.
ghost use Rattle.std.specs.Prelude.{true, ◌≡◌, ◌≢◌, ◌<◌, [], IfOk, map, None, ℕ, length, slice_index, Some, All, AllPairs};
ghost use Rattle.lock_words.specs.Values.{AreCompatible, Admits, held_as};
ghost use Rattle.lock_words.specs.Hands.{hand_looked, hand_granted, hand_released, new_hand, Answers, HasValue, all_held, IsOthers, AreAll, IsGathered, IsLast};
ghost use Rattle.std.specs.List.{range_with_len};
ghost use Rattle.lock_words.specs.View.{first_view, fresh_view};

use crate::got::Got;
use crate::hand::Hand;
use crate::plays::{Free, Gather, Law, Look, Never, NextHand, Try};
use crate::value::{added, admits, share_of};
use crate::view::{Size, View};
use atomic_table::{Seat, Table};
use no_memory::NoMemory;
use std::alloc::Global;
use std::marker::Model;
use std::mem::replace;

/// Lock words, each 0 where it is free, the number of its holders where it is held SHR, and `EXCL`
/// where one holds it EXCL. Threads share it by `&`.
#[derive(Drop)]
pub struct LockWords {
    // The lock words, and one more that nobody holds.
    table: Table<u8, View, Size, Law, Global>,
    answer: Vec<u64>,
}

impl Model for LockWords {
    ghost use Rattle.lock_words.specs.Hands.{LocksSeen, IsLocks};

    ghost Value = { LocksSeen };

    ghost view = { λ t. record { table = t.table.shared.table_id; words = t.table.shared.key.words; hands = t.table.shared.key.hands } };

    ghost invariant = { λ t. IsLocks t.table.shared.key t.table.shared.table_id t.answer.items };
}

impl LockWords {
    /// Makes this many lock words, all free, and this many hands. The only error is that there was
    /// no memory: nothing else here takes any.
    pub fn start(alloc: Global, words: u32, hands: u8) -> Result<(LockWords, Vec<Hand>), NoMemory>
        requires { 0 < hands }
        ensures form { IfOk result (λ r. (r.0.words ≡ words) × (r.0.hands ≡ hands)) }
        ensures hands { IfOk result (λ r. r.1.items ≡ map (new_hand r.0) (range_with_len 1 hands)) }
    {
        let (locks, seat) = LockWords::lay(alloc, words, hands)?;
        let hands = locks.deal(alloc, seat, hands)?;
        Ok((locks, hands))
    }

    /// The words, with the table's first seat.
    fn lay(alloc: Global, words: u32, hands: u8) -> Result<(LockWords, Seat<u8, View>), NoMemory>
        requires { 0 < hands }
        ensures form { IfOk result (λ r. (r.0.words ≡ words) × (r.0.hands ≡ hands)) }
        ensures seat { IfOk result (λ r. (r.1.table_id ≡ r.0.table) × (r.1.me ≡ (first_view, []))) }
    {
        let size = Size { words, hands };
        let answer = vec![in alloc; 0u64; words as usize]?;
        let row = vec![in alloc; 0u64; 1 + words as usize]?;
        let (table, seat) = Table::of_words(alloc, row.as_slice(), &size)?;
        Ok((LockWords { table, answer }, seat))
    }

    /// The hands, in the order of their numbers.
    fn deal(&self, alloc: Global, seat: Seat<u8, View>, hands: u8) -> Result<Vec<Hand>, NoMemory>
        requires count { (0 < hands) × (self.now.hands ≡ hands) }
        requires table { seat.table_id ≡ self.now.table }
        requires first { seat.me ≡ (first_view, []) }
        ensures { IfOk result (λ v. v.items ≡ map (new_hand self.now) (range_with_len 1 hands)) }
    {
        let mut dealt = Vec::with_capacity(alloc, usize::from(hands))?;
        let mut last = seat;
        let more = usize::from(hands) - 1;
        for made in 0..more {
            let next = self.table.shared.split_seat::<NextHand>(&mut last);
            let hand = self.seated(alloc, replace(&mut last, next))?;
            dealt.push(hand)?;
        }
        let hand = self.seated(alloc, last)?;
        dealt.push(hand)?;
        Ok(dealt)
    }

    /// A hand that did nothing yet.
    fn seated(&self, alloc: Global, seat: Seat<u8, View>) -> Result<Hand, NoMemory>
        requires table { seat.table_id ≡ self.now.table }
        requires number { 0 < seat.me.0.number }
        requires fresh { seat.me ≡ (fresh_view seat.me.0.number seat.me.0.right, []) }
        ensures { IfOk result (λ h. h ≡ new_hand self.now seat.me.0.number) }
    {
        let notes = vec![in alloc; None; self.answer.len()]?;
        Ok(Hand { notes, seat })
    }

    /// No two hands hold a word at once of which one holds it EXCL: nobody can make this call.
    pub fn never_two(&self, first: Hand, second: Hand, word: u32)
        requires tables { (first.table ≡ self.now.table) × (second.table ≡ self.now.table) }
        requires first { held_as first.held word ≡ Some true }
        requires second { held_as second.held word ≢ None }
        ensures { ⊥ }
    {
        let Hand { mut seat, notes: _ } = first;
        let Hand {
            seat: other,
            notes: _,
        } = second;
        let _ = word;
        self.table.shared.join_seat::<Gather>(&mut seat, other);
        self.table.shared.load::<Never>(&mut seat, 0);
    }

    /// Ends the locks, with all their hands, and gives the words.
    pub fn close(self, hands: Vec<Hand>) -> Vec<u64>
        requires hands { (0 < self.hands) × AreAll self hands.items }
        ensures count { length result.items ≡ self.words }
        ensures words { (word : ℕ) → word < self.words
            → HasValue (all_held hands.items) word (slice_index result.items word) }
        ensures compatible { AllPairs AreCompatible (all_held hands.items) }
        ensures read { All (λ h. All (IsOthers hands.items h.number) h.read) hands.items }
    {
        let seat = self.gather(hands);
        self.end(seat)
    }

    /// One seat takes in all hands.
    fn gather(&self, mut hands: Vec<Hand>) -> Seat<u8, View>
        requires { (0 < self.now.hands) × AreAll self.now hands.items }
        ensures table { (result.table_id ≡ self.now.table) × (result.me.1 ≡ []) }
        ensures all { IsGathered hands.items result.me.0 }
    {
        let Some(last) = hands.pop() else {
            unreachable!()
        };
        let Hand { mut seat, notes: _ } = last;
        while let Some(hand) = hands.pop() {
            let Hand {
                seat: other,
                notes: _,
            } = hand;
            self.table.shared.join_seat::<Gather>(&mut seat, other);
        }
        seat
    }

    /// Reads the words out.
    #[tactic(auto, using(crate::proofs::Gathering::read_told))]
    fn end(self, seat: Seat<u8, View>) -> Vec<u64>
        requires { seat.table_id ≡ self.table }
        ensures count { length result.items ≡ self.words }
        ensures last { IsLast self.words self.hands seat.id seat.me.0 result.items }
    {
        let LockWords { table, mut answer } = self;
        let closed = table.close_with(seat);
        for i in 0..answer.len() {
            answer[i] = closed.word(i);
        }
        closed.free();
        answer
    }

    /// Tries once to obtain a lock that the hand doesn't hold, with one load and at most one
    /// exchange.
    pub fn obtain(&self, hand: &mut Hand, word: u32, excl: bool) -> Got
        requires hand { hand.old.table ≡ self.now.table }
        requires word { word < self.now.words }
        requires free { held_as hand.old.held word ≡ None }
        ensures { Answers word excl hand.old hand.new result }
    {
        let seen = self.look(hand, word);
        if !admits(seen, excl) {
            return Got::Contended { word: seen };
        }
        let found = self.exchange(hand, word, seen, excl);
        if found == seen {
            Got::Granted
        } else {
            Got::Raced { seen, found }
        }
    }

    /// Loads a word.
    fn look(&self, hand: &mut Hand, word: u32) -> u64
        requires hand { hand.old.table ≡ self.now.table }
        requires word { word < self.now.words }
        requires free { held_as hand.old.held word ≡ None }
        ensures { hand.new ≡ hand_looked hand.old word result }
    {
        self.table
            .shared
            .load::<Look>(&mut hand.seat, word as usize)
    }

    /// Exchanges a word for the value with one more holder.
    fn exchange(&self, hand: &mut Hand, word: u32, seen: u64, excl: bool) -> u64
        requires hand { hand.old.table ≡ self.now.table }
        requires word { word < self.now.words }
        requires free { held_as hand.old.held word ≡ None }
        requires admits { Admits seen excl }
        ensures got { result ≡ seen → hand.new ≡ hand_granted (hand_looked hand.old word seen) word excl }
        ensures lost { result ≢ seen → hand.new ≡ hand_looked hand.old word result }
    {
        let new = added(seen, excl);
        let found = self
            .table
            .shared
            .compare_exchange::<Try>(&mut hand.seat, word as usize, seen, new);
        if found == seen {
            hand.notes[word as usize] = Some(excl);
        }
        found
    }

    /// Releases a lock that the hand holds, with one step.
    pub fn release(&self, hand: &mut Hand, word: u32)
        requires hand { hand.old.table ≡ self.now.table }
        requires word { word < self.now.words }
        requires held { held_as hand.old.held word ≢ None }
        ensures { hand.new ≡ hand_released hand.old word }
    {
        let shared = &self.table.shared;
        let place = word as usize;
        let share = share_of(hand.notes[place]);
        shared.fetch_sub::<Free>(&mut hand.seat, place, share);
        hand.notes[place] = None;
    }
}
