ghost use Rattle.std.specs.Prelude.{◌≡◌, ◌*◌, ◌+◌, ◌^◌, ◌<◌, ◌≤◌, ◌≢◌, ◌==◌, ◌⊎◌, ℕ, Bool, All, IfOk, true, false, fold, if◌then◌else◌};
ghost use Rattle.std.specs.Int.{bit_at};
ghost use Rattle.cf_types.specs.declared.limits.TheConstants.{CONNECTORS, VECTOR_BITS};
ghost use Rattle.cf_types.specs.Forms.{IsCaller};
ghost use Rattle.cf_types.specs.Gains.{Bits};
ghost use Rattle.vec_words.specs.Logged.{words_of};
ghost use Rattle.vec_words.specs.Stores.{IsAt, IsSpared, IsWithin};
ghost use Rattle.struct_cell.specs.Touches.{AreWordsOf, AreMirrorsOf, with_told, word_at};
ghost use Rattle.struct_cell.specs.Words.{whole_word, shown_in, words_in};

use crate::place_set::number_of;
use cf_types::{BitChange, ConnId, NoMemory};
use engine_api::Engine;
use std::alloc::Global;
use std::marker::Model;
use struct_machine::Machine;
use struct_machine::links::Link;
use vec_words::Place;

/// The words of all vectors, each at its number, as a call leaves them.
#[derive(Drop)]
pub(crate) struct Mirror {
    conns: u8,
    len: u32,
    words: Vec<u32>,
}

impl Model for Mirror {
    ghost use Rattle.std.specs.Prelude.{◌≡◌, ◌*◌, ◌≤◌, length};
    ghost use Rattle.cf_types.specs.declared.limits.TheConstants.{CONNECTORS, VECTOR_BITS};
    ghost use Rattle.vec_words.specs.Logged.{words_of};
    ghost use Rattle.struct_cell.specs.Touches.{MirrorWords};

    ghost Value = { MirrorWords };

    ghost view = { λ m. record { conns = m.conns; len = m.len; words = m.words.items } };

    ghost invariant = { λ m. (m.conns ≤ CONNECTORS) × (m.len ≤ VECTOR_BITS)
        × (length m.words.items ≡ m.conns * words_of m.len) };
}

impl Mirror {
    /// Words without a bit, of vectors of `len` bits for connectors 1 to `conns`.
    pub(crate) fn new(alloc: Global, conns: u8, len: u32) -> Result<Mirror, NoMemory>
        requires conns { conns ≤ CONNECTORS }
        requires len { len ≤ VECTOR_BITS }
        ensures conns { IfOk result (λ mirror. mirror.conns ≡ conns) }
        ensures len { IfOk result (λ mirror. mirror.len ≡ len) }
        ensures words { IfOk result
            (λ mirror. AreWordsOf conns len mirror.words (λ conn index. false)) }
    {
        let count = usize::from(conns) * ((len as usize + 31) / 32);
        let words = vec![in alloc; 0u32; count]?;
        Ok(Mirror { conns, len, words })
    }

    /// A word.
    pub(crate) fn word(&self, place: Place) -> u32
        requires { IsWithin self.now.conns self.now.len place }
        ensures { result ≡ word_at self.now.len self.now.words place.conn.0 place.word }
    {
        self.words[number_of(self.conns, self.len, place)]
    }

    // Puts a word in.
    fn put(&mut self, place: Place, bits: u32)
        requires { IsWithin self.old.conns self.old.len place }
        ensures table { AreMirrorsOf self.old self.new }
        ensures here { word_at self.new.len self.new.words place.conn.0 place.word ≡ bits }
        ensures others { (conn word : ℕ) → 0 < conn → word < words_of self.old.len
            → ¬ IsAt conn word place → word_at self.new.len self.new.words conn word
            ≡ word_at self.old.len self.old.words conn word }
    {
        let number = number_of(self.conns, self.len, place);
        self.words[number] = bits;
    }

    /// Takes bits over that are told, in their order.
    pub(crate) fn take_over(&mut self, bits: &[BitChange])
        ensures table { AreMirrorsOf self.old self.new }
        ensures words { (before : Bits) → AreWordsOf self.old.conns self.old.len self.old.words before
            → AreWordsOf self.new.conns self.new.len self.new.words
            (fold with_told before bits.now) }
    {
        for change in bits {
            self.take_bit(change);
        }
    }

    // Takes one bit over. Bits past the vectors have no word.
    fn take_bit(&mut self, change: &BitChange)
        ensures table { AreMirrorsOf self.old self.new }
        ensures words { (before : Bits) → AreWordsOf self.old.conns self.old.len self.old.words before
            → AreWordsOf self.new.conns self.new.len self.new.words (with_told before change.now) }
    {
        if is_past(change, self.conns, self.len) {
            return;
        }
        let place = Place {
            conn: change.conn,
            word: change.index / 32,
        };
        let bits = self.word(place);
        self.put(place, changed_bit(bits, change.index % 32, change.bit));
    }

    /// Looks each bit of these words up.
    pub(crate) fn look_up<E: Engine, L: Link>(&mut self, machine: &Machine<E, L>, places: &[Place])
        requires vector { self.old.len ≡ machine.now.form.vector }
        requires conns { self.old.conns ≤ CONNECTORS }
        requires len { self.old.len ≤ VECTOR_BITS }
        requires within { All (IsWithin self.old.conns self.old.len) places.now }
        ensures table { AreMirrorsOf self.old self.new }
        ensures words { (conn word : ℕ) → 0 < conn → word < words_of self.old.len
            → IsSpared places.now conn word ⊎ (word_at self.new.len self.new.words conn word
            ≡ words_in E.meaning machine.now.form machine.now.machine conn word) }
    {
        for place in places {
            let bits = word_of(machine, place.conn, place.word);
            self.put(*place, bits);
        }
    }
}

// Whether vectors of `len` bits for connectors 1 to `conns` don't have a bit.
fn is_past(change: &BitChange, conns: u8, len: u32) -> bool
    ensures past { result ≡ true → (change.now.conn.0 ≡ 0)
        ⊎ ((conns < change.now.conn.0) ⊎ (len ≤ change.now.index)) }
    ensures inside { result ≡ false
        → (0 < change.now.conn.0) × (change.now.conn.0 ≤ conns) × (change.now.index < len) }
{
    change.conn.0 == 0 || change.conn.0 > conns || change.index >= len
}

// A word with a bit set or cleared.
fn changed_bit(bits: u32, place: u32, bit: bool) -> u32
    requires { place < 32 }
    ensures { (f : ℕ → Bool) → bits ≡ whole_word f
        → result ≡ whole_word (λ k. if k == place then bit else f k) }
{
    if bit {
        with_one(bits, place)
    } else {
        without_one(bits, place)
    }
}

// A word with a bit set.
fn with_one(bits: u32, place: u32) -> u32
    requires { place < 32 }
    ensures here { bit_at result place ≡ 1 }
    ensures others { (k : ℕ) → k ≢ place → bit_at result k ≡ bit_at bits k }
{
    bits | (1 << place)
}

// A word with a bit cleared.
fn without_one(bits: u32, place: u32) -> u32
    requires { place < 32 }
    ensures here { bit_at result place ≡ 0 }
    ensures others { (k : ℕ) → k < 32 → k ≢ place → bit_at result k ≡ bit_at bits k }
{
    bits & !(1 << place)
}

// The 32 bits of a word of a connector's vector, the least index lowest. Past the vector's end
// they are 0.
fn word_of<E: Engine, L: Link>(machine: &Machine<E, L>, conn: ConnId, word: u32) -> u32
    requires conn { IsCaller conn }
    requires word { word < 2 ^ 27 }
    ensures { result ≡ words_in E.meaning machine.now.form machine.now.machine conn.0 word }
{
    let vector = machine.form().vector;
    let mut bits: u32 = 0;
    for k in 0..32u32 {
        bits = with_bit(bits, k, is_shown(machine, vector, conn, 32 * word + k));
    }
    bits
}

// A word with one bit more, at the place behind those that it has.
fn with_bit(bits: u32, place: u32, stands: bool) -> u32
    requires place { place < 32 }
    requires bits { bits < 2 ^ place }
    ensures { result ≡ (if stands then 1 else 0) * 2 ^ place + bits }
{
    if stands { bits + (1 << place) } else { bits }
}

// The bit of an index, where the vector has it.
fn is_shown<E: Engine, L: Link>(
    machine: &Machine<E, L>,
    vector: u32,
    conn: ConnId,
    index: u32,
) -> bool
    requires conn { IsCaller conn }
    requires vector { vector ≡ machine.now.form.vector }
    ensures { result ≡ shown_in E.meaning machine.now.form machine.now.machine conn index }
{
    index < vector && machine.stands(conn, index)
}
