//! Tests of a vector's bits.
ghost use Rattle.std.specs.Prelude.{◌≡◌, ◌/◌, ◌*◌, ◌<◌, ◌≤◌, ◌++◌, [], ◌∷◌, map, All};
ghost use Rattle.vec_words.specs.Logged.{words_of, word_number, bit_in, indices_of, sight};

use crate::logged::{Tested, TestedWord};
use crate::pass::Pass;
use crate::plays::{Asked, Look};
use crate::vectors::Vectors;
use std::marker::Brand;
use vec_world::{bits_of, stamp_of};

impl<D> Vectors<D> {
    /// Tests a bit of the pass's own vector with one load: no lock, no memory, no waiting (IXLVECTR
    /// TESTLOCALCACHE and TESTLISTSTATE). It answers the bit and the number that the answer is of,
    /// which the pass then knows. The operator's pass doesn't test.
    pub fn test(&self, pass: &mut Pass<D>, index: u32) -> Tested
        requires table { pass.old.table ≡ self.now }
        requires caller { 0 < pass.old.owner }
        requires index { index < self.now.len }
        ensures later { pass.old.known ≤ result.at }
        ensures pass { pass.new ≡ record pass.old {
          known = result.at;
          tests = pass.old.tests ++ record {
            index = index;
            bit = result.bit;
            at = result.at;
            sure = pass.old.sure;
          } ∷ [];
        } }
    {
        let TestedWord { bits, at } = self.look::<Brand>(pass, index);
        Tested {
            bit: (bits >> (index % 32)) & 1 == 1,
            at,
        }
    }

    /// Tests the 32 bits of a word of the pass's own vector with one load.
    #[tactic(auto, using(crate::proofs::Places::indices_within))]
    pub fn test_word(&self, pass: &mut Pass<D>, word: u32) -> TestedWord
        requires table { pass.old.table ≡ self.now }
        requires caller { 0 < pass.old.owner }
        requires word { word < words_of self.now.len }
        ensures later { pass.old.known ≤ result.at }
        ensures pass { pass.new ≡ record pass.old {
          known = result.at;
          tests = pass.old.tests ++ map (sight result.bits result.at pass.old.sure)
              (indices_of word);
        } }
    {
        let _ = &self.len;
        self.look::<Brand>(pass, 32 * word)
    }

    /// Loads the word of an index, for a test of some of its bits.
    fn look<A: Asked>(&self, pass: &mut Pass<D>, index: u32) -> TestedWord
        requires table { pass.old.table ≡ self.now }
        requires caller { 0 < pass.old.owner }
        requires index { index / 32 < words_of self.now.len }
        requires asked { All (λ k. k / 32 ≡ index / 32) A.asked }
        ensures later { pass.old.known ≤ result.at }
        ensures pass { pass.new ≡ record pass.old {
          known = result.at;
          tests = pass.old.tests ++ map (sight result.bits result.at pass.old.sure) A.asked;
        } }
    {
        let place = self.place_of(pass, index);
        let found = self.table.shared.load::<Look<A>>(&mut pass.seat, 1 + place);
        let stamp = stamp_of(found);
        // Most tests find nothing new, and then write nothing.
        if pass.known < stamp {
            pass.known = stamp;
        }
        TestedWord {
            bits: bits_of(found),
            at: pass.known,
        }
    }

    /// Which of all words has an index of the pass's own vector.
    fn place_of(&self, pass: &Pass<D>, index: u32) -> usize
        requires table { pass.now.table ≡ self.now }
        requires caller { 0 < pass.now.owner }
        requires index { index / 32 < words_of self.now.len }
        ensures number { result ≡ word_number self.now.len pass.now.owner (index / 32) }
        ensures within { result < self.now.conns * words_of self.now.len }
    {
        self.word_number(pass.owner.0, index / 32)
    }
}
