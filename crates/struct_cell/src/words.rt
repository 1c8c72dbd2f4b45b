ghost use Rattle.std.specs.Prelude.{◌≡◌, ◌<◌, ◌≤◌, ◌++◌, ◌∷◌, [], ℕ};
ghost use Rattle.vec_words.specs.VecWorld.Log.{HasStore};
ghost use Rattle.vec_words.specs.Logged.{steps_of, word_number};
ghost use Rattle.vec_words.specs.Stores.{IsWithin, StoresEach, store_of};
ghost use Rattle.struct_cell.specs.Touches.{word_at};

use crate::touched::Touched;
use vec_words::{EngineSeat, Place, Vectors};

/// Stores each word in which a call may have changed a bit, as the call leaves it, under the number
/// in flight.
pub(crate) fn store_words<D>(vectors: &Vectors<D>, seat: &mut EngineSeat<D>, touched: &Touched)
    requires table { seat.old.table ≡ vectors.now }
    requires begun { 0 < seat.old.number }
    requires conns { touched.now.conns ≡ vectors.now.conns }
    requires len { touched.now.len ≡ vectors.now.len }
    requires fresh { (word : ℕ) → ¬ HasStore (steps_of seat.old.log) word seat.old.number }
    ensures { StoresEach vectors.now.conns vectors.now.len
        (word_at touched.now.len touched.now.words) touched.now.places seat.old seat.new }
{
    let places = touched.places();
    for place in places {
        store_one(vectors, seat, touched, *place);
    }
}

// Stores one word.
fn store_one<D>(vectors: &Vectors<D>, seat: &mut EngineSeat<D>, touched: &Touched, place: Place)
    requires table { seat.old.table ≡ vectors.now }
    requires begun { 0 < seat.old.number }
    requires conns { touched.now.conns ≡ vectors.now.conns }
    requires len { touched.now.len ≡ vectors.now.len }
    requires within { IsWithin vectors.now.conns vectors.now.len place }
    requires once { ¬ HasStore (steps_of seat.old.log)
        (word_number vectors.now.len place.conn.0 place.word) seat.old.number }
    ensures { seat.new ≡ record seat.old {
      log = seat.old.log ++ store_of vectors.now.len
          (word_at touched.now.len touched.now.words) seat.old.number place ∷ [];
    } }
{
    let bits = touched.word(place);
    vectors.store_word(seat, place.conn, place.word, bits);
}
