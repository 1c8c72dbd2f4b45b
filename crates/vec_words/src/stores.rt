//! The stores of one call.
ghost use Rattle.std.specs.Prelude.{◌≡◌, ◌<◌, ◌≤◌, ◌++◌, [], ◌∷◌, ℕ, List, true, false, length, take, Contains, All, Some, slice_get};
ghost use Rattle.vec_world.specs.Log.{HasStore};
ghost use Rattle.vec_words.specs.declared.stores.Place.{Place};
ghost use Rattle.vec_words.specs.Logged.{steps_of, word_number};
ghost use Rattle.vec_words.specs.Stores.{IsWithin, IsSpared, AreDistinct, StoresEach, store_of};

use crate::seat::EngineSeat;
use crate::vectors::Vectors;
use cf_types::ConnId;

/// A word of a connector's vector.
#[derive(Clone, Copy, PartialEq, Eq)]
pub struct Place {
    pub conn: ConnId,
    pub word: u32,
}

/// The words of vectors that a call changes, in whatever form a layer above has them: as a list of
/// the bits that changed, say, beside the content that tells each bit.
pub trait Changes {
    /// The words that are named, however often each.
    ghost places: { Self → List Place };

    /// The bits of a word after the call, by its connector and its number in the vector.
    ghost bits_in: { Self → ℕ → ℕ → ℕ };

    /// How many words are named.
    fn count(&self) -> usize
        ensures { result ≡ length (places self.now) };

    /// The word that is named at this place of the list.
    fn place(&self, at: usize) -> Place
        requires { at < length (places self.now) }
        ensures { slice_get (places self.now) at ≡ Some result };

    /// The bits of a word after the call.
    fn bits(&self, place: Place) -> u32
        ensures { result ≡ bits_in self.now place.conn.0 place.word };

    /// Whether a word may be named more than once. Where none is, nothing is looked for.
    fn may_repeat(&self) -> bool
        ensures { result ≡ false → AreDistinct (places self.now) }
    {
        true
    }
}

impl<D> Vectors<D> {
    /// Stores each word that is named, once, under the number in flight, which no store has yet. It
    /// takes no memory. Where a word may be named again, it is looked for from the last one back,
    /// so a list that names words in runs is stored in few steps.
    pub fn store_changed<C: Changes>(&self, seat: &mut EngineSeat<D>, changes: &C)
        requires table { seat.old.table ≡ self.now }
        requires begun { 0 < seat.old.number }
        requires within { All (IsWithin self.now.conns self.now.len) (C.places changes.now) }
        requires fresh { (word : ℕ) → ¬ HasStore (steps_of seat.old.log) word seat.old.number }
        ensures { StoresEach self.now.conns self.now.len (C.bits_in changes.now)
            (C.places changes.now) seat.old seat.new }
    {
        for at in 0..changes.count() {
            let place = changes.place(at);
            self.store_first(seat, changes, at, place);
        }
    }

    /// Stores the word of this place, unless it is named earlier too. True if it was stored.
    fn store_first<C: Changes>(
        &self,
        seat: &mut EngineSeat<D>,
        changes: &C,
        at: usize,
        place: Place,
    ) -> bool
        requires table { seat.old.table ≡ self.now }
        requires begun { 0 < seat.old.number }
        requires place { slice_get (C.places changes.now) at ≡ Some place }
        requires within { IsWithin self.now.conns self.now.len place }
        requires once { IsSpared (take at (C.places changes.now)) place.conn.0 place.word
            → ¬ HasStore (steps_of seat.old.log) (word_number self.now.len place.conn.0 place.word)
            seat.old.number }
        ensures first { result ≡ true → IsSpared (take at
            (C.places changes.now)) place.conn.0 place.word
            × (seat.new ≡ record seat.old {
              log = seat.old.log ++ store_of self.now.len
                  (C.bits_in changes.now) seat.old.number place ∷ [];
            }) }
        ensures again { result ≡ false → Contains (take at (C.places changes.now)) place
            × (seat.new ≡ seat.old) }
    {
        let first = !changes.may_repeat() || is_first(changes, at, place);
        if first {
            let bits = changes.bits(place);
            self.store_word(seat, place.conn, place.word, bits);
        }
        first
    }
}

/// Whether the place isn't named before this one.
#[tactic(auto, using(crate::proofs::StoreLaws::spared_below))]
fn is_first<C: Changes>(changes: &C, at: usize, place: Place) -> bool
    requires { at ≤ length (C.places changes.now) }
    ensures first { result ≡ true → IsSpared (take at
        (C.places changes.now)) place.conn.0 place.word }
    ensures again { result ≡ false → Contains (take at (C.places changes.now)) place }
{
    let mut before = at;
    while before > 0 {
        before -= 1;
        let other = changes.place(before);
        if other.conn.0 == place.conn.0 && other.word == place.word {
            return false;
        }
    }
    true
}
