ghost use Rattle.std.specs.Prelude.{◌≡◌, ◌+◌, ◌/◌, ◌<◌, ◌≤◌, ℕ, [], true, false, IfOk, OnOk, All};
ghost use Rattle.cf_types.specs.declared.limits.TheConstants.{CONNECTORS, VECTOR_BITS};
ghost use Rattle.cf_types.specs.Gains.{Bits, is_for};
ghost use Rattle.cf_types.specs.declared.numbers.ConnId.{ConnId};
ghost use Rattle.struct_machine.specs.Changes.{IsUntouched, Names};
ghost use Rattle.struct_machine.specs.StructureView.{stands_at};
ghost use Rattle.struct_cell.specs.Touches.{AreMirroring, AreMirrorsOf, AreOfTable, AreWordsOf, IsOfTable, IsEvery, ComeBefore, word_at};
ghost use Rattle.vec_words.specs.Logged.{words_of};
ghost use Rattle.vec_words.specs.Stores.{IsWithin, IsSpared, AreDistinct};

use crate::mirror::Mirror;
use crate::place_set::PlaceSet;
use cf_types::{BitChange, ConnId, NoMemory};
use engine_api::Engine;
use std::alloc::Global;
use std::marker::Model;
use struct_machine::links::Link;
use struct_machine::{Changed, Machine};
use vec_words::Place;

/// The words of all vectors, and those of them in which a call may have changed a bit: those that
/// are named, or every word.
#[derive(Drop)]
pub(crate) struct Touched {
    mirror: Mirror,
    every: Vec<Place>,
    named: PlaceSet,
    all: bool,
}

impl Model for Touched {
    ghost use Rattle.std.specs.Prelude.{◌≡◌, ◌≤◌, All, if◌then◌else◌};
    ghost use Rattle.cf_types.specs.declared.limits.TheConstants.{CONNECTORS, VECTOR_BITS};
    ghost use Rattle.struct_cell.specs.Touches.{VectorWords, IsEvery};
    ghost use Rattle.vec_words.specs.Stores.{IsWithin, AreDistinct};

    ghost Value = { VectorWords };

    ghost view = { λ t. record {
      conns = t.named.conns;
      len = t.named.len;
      words = t.mirror.words;
      places = if t.all then t.every.items
          else t.named.places;
    } };

    ghost invariant = { λ t. All (IsWithin t.named.conns t.named.len) t.every.items
        × AreDistinct t.every.items × IsEvery t.named.conns t.named.len t.every.items
        × (t.mirror.conns ≡ t.named.conns) × (t.mirror.len ≡ t.named.len)
        × (t.mirror.conns ≤ CONNECTORS) × (t.mirror.len ≤ VECTOR_BITS) };
}

impl Touched {
    /// Words without a bit, of vectors of `len` bits for connectors 1 to `conns`, and none of them
    /// touched.
    pub(crate) fn none(alloc: Global, conns: u8, len: u32) -> Result<Touched, NoMemory>
        requires conns { conns ≤ CONNECTORS }
        requires len { len ≤ VECTOR_BITS }
        ensures conns { IfOk result (λ touched. touched.conns ≡ conns) }
        ensures len { IfOk result (λ touched. touched.len ≡ len) }
        ensures words { IfOk result
            (λ touched. AreWordsOf conns len touched.words (λ conn index. false)) }
    {
        let mirror = Mirror::new(alloc, conns, len)?;
        let every = every_word(alloc, conns, len)?;
        let named = PlaceSet::new(alloc, conns, len)?;
        Ok(Touched {
            mirror,
            every,
            named,
            all: false,
        })
    }

    /// A call has left the machine so: the words are brought to what it changed, and those in which
    /// it may have changed a bit are the touched ones. It takes no memory: where there is no room
    /// for all that are named, every word is touched.
    pub(crate) fn note<E: Engine, L: Link>(&mut self, changed: &Changed, machine: &Machine<E, L>)
        requires vector { self.old.len ≡ machine.now.form.vector }
        ensures table { AreOfTable self.old self.new }
        ensures words { (before : Bits)
            → AreWordsOf self.old.conns self.old.len self.old.words before
            → Names changed.now before (stands_at E.meaning machine.now.machine)
            → AreWordsOf self.new.conns self.new.len self.new.words
            (stands_at E.meaning machine.now.machine) }
        ensures spared { (conn : ConnId) (index : ℕ) → 0 < conn.0 → conn.0 ≤ self.new.conns
            → index < self.new.len → IsSpared self.new.places conn.0 (index / 32)
            → IsUntouched changed.now conn index }
    {
        follow(&mut self.mirror, self.every.as_slice(), changed, machine);
        self.touch(changed);
    }

    // The words of the bits that a call may have changed.
    fn touch(&mut self, changed: &Changed)
        ensures table { AreOfTable self.old self.new }
        ensures words { self.new.words ≡ self.old.words }
        ensures spared { (conn : ConnId) (index : ℕ) → 0 < conn.0 → conn.0 ≤ self.new.conns
            → index < self.new.len → IsSpared self.new.places conn.0 (index / 32)
            → IsUntouched changed.now conn index }
    {
        self.named.clear();
        if changed.is_all() {
            self.all = true;
            return;
        }
        self.all = !name_all(&mut self.named, changed.bits());
    }

    /// A word.
    pub(crate) fn word(&self, place: Place) -> u32
        requires { IsWithin self.now.conns self.now.len place }
        ensures { result ≡ word_at self.now.len self.now.words place.conn.0 place.word }
    {
        self.mirror.word(place)
    }

    /// The touched words.
    pub(crate) fn places(&self) -> &[Place]
        ensures places { result.now ≡ self.now.places }
        ensures within { All (IsWithin self.now.conns self.now.len) result.now }
        ensures distinct { AreDistinct result.now }
    {
        if self.all {
            self.every.as_slice()
        } else {
            self.named.places()
        }
    }
}

// Brings words to what a call has changed: to the bits that are told, or, where it may be any bit,
// each to the machine's bits.
fn follow<E: Engine, L: Link>(
    mirror: &mut Mirror,
    every: &[Place],
    changed: &Changed,
    machine: &Machine<E, L>,
)
    requires vector { mirror.old.len ≡ machine.now.form.vector }
    requires conns { mirror.old.conns ≤ CONNECTORS }
    requires len { mirror.old.len ≤ VECTOR_BITS }
    requires within { All (IsWithin mirror.old.conns mirror.old.len) every.now }
    requires every { IsEvery mirror.old.conns mirror.old.len every.now }
    ensures table { AreMirrorsOf mirror.old mirror.new }
    ensures words { (before : Bits)
        → AreMirroring mirror.old before
        → Names changed.now before (stands_at E.meaning machine.now.machine)
        → AreMirroring mirror.new (stands_at E.meaning machine.now.machine) }
{
    if changed.is_all() {
        mirror.look_up(machine, every);
        return;
    }
    mirror.take_over(changed.bits());
}

// Puts the words of these bits in. False where there is no room for all of them. Bits past the
// vectors have no word.
fn name_all(named: &mut PlaceSet, bits: &[BitChange]) -> bool
    ensures table { IsOfTable named.old named.new }
    ensures spared { result ≡ true → (conn : ConnId) (index : ℕ) → 0 < conn.0
        → conn.0 ≤ named.old.conns → index < named.old.len
        → IsSpared named.new.places conn.0 (index / 32)
        → All (λ change. is_for conn index change ≡ false) bits.now }
{
    for change in bits {
        if !name_one(named, change) {
            return false;
        }
    }
    true
}

// Puts the word of a bit in. False where there is no room for it.
fn name_one(named: &mut PlaceSet, change: &BitChange) -> bool
    ensures table { IsOfTable named.old named.new }
    ensures others { (conn word : ℕ) → IsSpared named.new.places conn word
        → IsSpared named.old.places conn word }
    ensures spared { result ≡ true → (conn : ConnId) (index : ℕ) → 0 < conn.0
        → conn.0 ≤ named.old.conns → index < named.old.len
        → IsSpared named.new.places conn.0 (index / 32) → is_for conn index change.now ≡ false }
{
    if change.conn.0 == 0 || change.conn.0 > named.conns() || change.index >= named.len() {
        return true;
    }
    named.insert(Place {
        conn: change.conn,
        word: change.index / 32,
    })
}

// Every word of vectors of `len` bits for connectors 1 to `conns`.
fn every_word(alloc: Global, conns: u8, len: u32) -> Result<Vec<Place>, NoMemory>
    requires { len ≤ VECTOR_BITS }
    ensures within { IfOk result (λ places. All (IsWithin conns len) places.items) }
    ensures distinct { IfOk result (λ places. AreDistinct places.items) }
    ensures every { IfOk result (λ places. IsEvery conns len places.items) }
{
    let mut places = Vec::new(alloc);
    for before in 0..conns {
        put_words(&mut places, conns, len, ConnId(before + 1))?;
    }
    Ok(places)
}

// The words of one connector's vector, behind those of the connectors before it.
fn put_words(places: &mut Vec<Place>, conns: u8, len: u32, conn: ConnId) -> Result<(), NoMemory>
    requires conn { (0 < conn.0) × (conn.0 ≤ conns) }
    requires len { len ≤ VECTOR_BITS }
    requires within { All (IsWithin conns len) places.old.items }
    requires distinct { AreDistinct places.old.items }
    requires before { ComeBefore places.old.items conn.0 0 }
    ensures within { OnOk result (All (IsWithin conns len) places.new.items) }
    ensures distinct { OnOk result (AreDistinct places.new.items) }
    ensures before { OnOk result (ComeBefore places.new.items (conn.0 + 1) 0) }
    ensures others { OnOk result ((other word : ℕ) → IsSpared places.new.items other word
        → IsSpared places.old.items other word) }
    ensures here { OnOk result ((word : ℕ) → word < words_of len
        → IsSpared places.new.items conn.0 word → ⊥) }
{
    for word in 0..(len + 31) / 32 {
        put_word(places, conns, len, Place { conn, word })?;
    }
    Ok(())
}

// A word behind those that come before it.
fn put_word(places: &mut Vec<Place>, conns: u8, len: u32, place: Place) -> Result<(), NoMemory>
    requires place { IsWithin conns len place }
    requires within { All (IsWithin conns len) places.old.items }
    requires distinct { AreDistinct places.old.items }
    requires before { ComeBefore places.old.items place.conn.0 place.word }
    ensures within { OnOk result (All (IsWithin conns len) places.new.items) }
    ensures distinct { OnOk result (AreDistinct places.new.items) }
    ensures before { OnOk result (ComeBefore places.new.items place.conn.0 (place.word + 1)) }
    ensures others { OnOk result ((other word : ℕ) → IsSpared places.new.items other word
        → IsSpared places.old.items other word) }
    ensures here { OnOk result (IsSpared places.new.items place.conn.0 place.word → ⊥) }
{
    places.push(place)?;
    Ok(())
}
