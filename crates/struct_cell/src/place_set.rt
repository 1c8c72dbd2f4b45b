ghost use Rattle.std.specs.Prelude.{◌≡◌, ◌≢◌, ◌*◌, ◌<◌, ◌≤◌, ℕ, [], true, false, Some, Contains, IfOk, All, length, get_or, slice_get};
ghost use Rattle.cf_types.specs.declared.limits.TheConstants.{VECTOR_BITS};
ghost use Rattle.struct_cell.specs.Touches.{IsOfTable, AreSpotted};
ghost use Rattle.vec_words.specs.Logged.{words_of, word_number};
ghost use Rattle.vec_words.specs.Stores.{IsWithin, IsSpared, AreDistinct};

use cf_types::NoMemory;
use std::alloc::Global;
use std::marker::Model;
use vec_words::Place;

/// Words of vectors, each at most once. A word is found by its number: to put one in takes as long
/// whether few are there or many.
#[derive(Drop)]
pub(crate) struct PlaceSet {
    conns: u8,
    len: u32,
    places: Vec<Place>,
    // For each word of the vectors the index that it has among the places, if it is one of them.
    spots: Vec<usize>,
}

impl Model for PlaceSet {
    ghost use Rattle.struct_cell.specs.Touches.{TouchedWords, AreSpotted};

    ghost Value = { TouchedWords };

    ghost view = { λ s. record { conns = s.conns; len = s.len; places = s.places.items } };

    ghost invariant = { λ s. AreSpotted s.conns s.len s.places.items s.spots.items };
}

impl PlaceSet {
    /// No word, with room for all of vectors of `len` bits for connectors 1 to `conns`.
    pub(crate) fn new(alloc: Global, conns: u8, len: u32) -> Result<PlaceSet, NoMemory>
        requires { len ≤ VECTOR_BITS }
        ensures { IfOk result (λ set. set ≡ record { conns = conns; len = len; places = [] }) }
    {
        let count = usize::from(conns) * ((len as usize + 31) / 32);
        let spots = vec![in alloc; 0usize; count]?;
        let places = Vec::with_capacity(alloc, count)?;
        Ok(PlaceSet {
            conns,
            len,
            places,
            spots,
        })
    }

    /// How many connectors have vectors.
    pub(crate) fn conns(&self) -> u8
        ensures { result ≡ self.now.conns }
    {
        self.conns
    }

    /// How many bits a vector has.
    pub(crate) fn len(&self) -> u32
        ensures { result ≡ self.now.len }
    {
        self.len
    }

    /// Takes all words out.
    pub(crate) fn clear(&mut self)
        ensures { self.new ≡ record self.old { places = [] } }
    {
        self.places.clear();
    }

    /// Puts a word in, unless it is there. False where there is no room for it.
    pub(crate) fn insert(&mut self, place: Place) -> bool
        requires { IsWithin self.old.conns self.old.len place }
        ensures table { IsOfTable self.old self.new }
        ensures others { (conn word : ℕ) → IsSpared self.new.places conn word
            → IsSpared self.old.places conn word }
        ensures here { result ≡ true → Contains self.new.places place }
    {
        let number = number_of(self.conns, self.len, place);
        insert_at(
            self.conns,
            self.len,
            &mut self.places,
            &mut self.spots,
            number,
            place,
        )
    }

    /// The words.
    pub(crate) fn places(&self) -> &[Place]
        ensures places { result.now ≡ self.now.places }
        ensures within { All (IsWithin self.now.conns self.now.len) result.now }
        ensures distinct { AreDistinct result.now }
    {
        self.places.as_slice()
    }
}

/// The number of a word among all words.
pub(crate) fn number_of(conns: u8, len: u32, place: Place) -> usize
    requires place { IsWithin conns len place }
    ensures number { result ≡ word_number len place.conn.0 place.word }
    ensures within { result < conns * words_of len }
{
    let _ = conns;
    usize::from(place.conn.0 - 1) * ((len as usize + 31) / 32) + place.word as usize
}

// Puts the word of this number in, unless it is there. False where there is no room for it.
fn insert_at(
    conns: u8,
    len: u32,
    places: &mut Vec<Place>,
    spots: &mut Vec<usize>,
    number: usize,
    place: Place,
) -> bool
    requires spotted { AreSpotted conns len places.old.items spots.old.items }
    requires place { IsWithin conns len place }
    requires number { number ≡ word_number len place.conn.0 place.word }
    requires within { number < length spots.old.items }
    ensures spotted { AreSpotted conns len places.new.items spots.new.items }
    ensures others { (conn word : ℕ) → IsSpared places.new.items conn word
        → IsSpared places.old.items conn word }
    ensures here { result ≡ true → Contains places.new.items place }
{
    if is_there(places.as_slice(), spots.as_slice(), number, place) {
        return true;
    }
    if places.len() == places.capacity() {
        return false;
    }
    spots[number] = places.len();
    places.push_reserved(place);
    true
}

// Whether the word of this number is there.
fn is_there(places: &[Place], spots: &[usize], number: usize, place: Place) -> bool
    requires { number < length spots.now }
    ensures there { result ≡ true → Contains places.now place }
    ensures absent { result ≡ false → (k : ℕ) → get_or spots.now number 0 ≡ k
        → slice_get places.now k ≢ Some place }
{
    match places.get(spots[number]) {
        Some(found) => found.conn.0 == place.conn.0 && found.word == place.word,
        None => false,
    }
}
