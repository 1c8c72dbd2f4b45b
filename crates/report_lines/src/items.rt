//! The lines of a transcript.

ghost use Rattle.std.specs.Prelude.{◌≡◌, ◌<◌, ◌≤◌, ◌^◌, length, codes, IfSome, IfNone};
ghost use Rattle.cf_types.specs.declared.limits.TheConstants.{STRUCTURES};
ghost use Rattle.line_rows.specs.Rows.{first_of};
ghost use Rattle.plex_spell.specs.Patterns.{either_of};
ghost use Rattle.plex_spell.specs.Places.{on_first};
ghost use Rattle.plex_spell.specs.Tokens.{structure_of};
ghost use Rattle.reply_rows.specs.Parts.{small, with_one};
ghost use Rattle.plex_script.specs.declared.transcripts.Shown.{Shown};
ghost use Rattle.plex_script.specs.Causes.{kind_of};
ghost use Rattle.plex_script.specs.Limits.{KeepsLimits};
ghost use Rattle.plex_report.specs.Lines.{shown_line};
ghost use Rattle.reply_read.specs.Found.{Takes, Found};
ghost use Rattle.report_lines.specs.Items.{bit_of, digit_of, bits_at, number_row, test_row, word_row, bad_row, behind_forms, shown_row};
ghost use Rattle.report_lines.specs.Readable.{IsItem};
ghost use Rattle.report_lines.specs.Spaced.{line_value};

use crate::spaced::is_spaced;
use cf_types::{Kind, StrForm, StrNo};
use plex_script::{Script, Shown};
use plex_spell::{Rigour, Words, is, number, structure_number};

// The kind of a structure.
fn kind_of(structures: &[StrForm], on: StrNo) -> Kind
    ensures { result ≡ kind_of structures.now on }
{
    match structures.get(on.0 as usize) {
        Some(form) => form.kind,
        None => Kind::Cache,
    }
}

// One of two words: the first for true.
fn either(word: &[u8], first: &[u8], second: &[u8]) -> Option<bool>
    ensures { result ≡ either_of first.now second.now word.now }
{
    if is(word, first) {
        return Some(true);
    }
    if is(word, second) {
        return Some(false);
    }
    None
}

// What a bit says.
fn bit_of(kind: Kind, word: &[u8]) -> Option<bool>
    ensures { result ≡ bit_of kind word.now }
{
    match kind {
        Kind::Cache => either(word, b"VALID", b"INVALID"),
        Kind::List { .. } => either(word, b"NOTEMPTY", b"EMPTY"),
        Kind::Lock => None,
    }
}

// A binary digit.
fn digit_of(byte: u8) -> Option<u32>
    ensures value { result ≡ digit_of byte }
    ensures small { IfSome result (λ digit. digit ≤ 1) }
{
    match byte {
        b'0' => Some(0),
        b'1' => Some(1),
        _ => None,
    }
}

// The number of so many binary digits, the lowest first.
#[tactic(auto, using(crate::proofs::BitLaws::doubled))]
fn bits_of(count: u32, word: &[u8]) -> Option<u32>
    requires { count ≤ 32 }
    ensures value { result ≡ bits_at count word.now }
    ensures small { IfSome result (λ n. n < 2 ^ count) }
{
    match word {
        [] => { if count == 0 { Some(0) } else { None } }
        [first, rest @ ..] => {
            if count == 0 {
                return None;
            }
            let digit = digit_of(*first)?;
            let more = bits_of(count - 1, rest)?;
            Some(digit + 2 * more)
        }
    }
}

// Takes a number of 32 bits.
fn small(words: &mut Words) -> Option<u32>
    ensures { Takes result words.new (on_first small.value words.old) }
{
    let word = words.next()?;
    number(Rigour::Names, word, 0, u32::MAX)
}

// A number behind a word.
fn labelled(line: &Words, lead: &[u8]) -> Option<u32>
    ensures { Found (λ v. (v, tt)) result ((with_one lead.now small).values line.now) }
{
    let mut words = line.again();
    if !words.skip(lead) {
        return None;
    }
    let value = small(&mut words)?;
    if words.is_done() { Some(value) } else { None }
}

// A number alone.
fn call(line: &Words) -> Option<u32>
    ensures { Found (λ v. (v, tt)) result (number_row.values line.now) }
{
    let mut words = line.again();
    let number = small(&mut words)?;
    if words.is_done() { Some(number) } else { None }
}

// A bit at an index.
fn test(kind: Kind, line: &Words) -> Option<(u32, bool, u32)>
    ensures { Found (λ v. (v.0, (v.1, (v.2, tt)))) result ((test_row kind).values line.now) }
{
    let mut words = line.again();
    if !words.skip(b"TEST") {
        return None;
    }
    let index = small(&mut words)?;
    let bit = bit_of(kind, words.next()?)?;
    let at = small(&mut words)?;
    if words.is_done() {
        Some((index, bit, at))
    } else {
        None
    }
}

// The bits of a word.
fn word(line: &Words) -> Option<(u32, u32, u32)>
    ensures { Found (λ v. (v.0, (v.1, (v.2, tt)))) result (word_row.values line.now) }
{
    let mut words = line.again();
    if !words.skip(b"TESTWORD") {
        return None;
    }
    let word = small(&mut words)?;
    let bits = bits_of(32, words.next()?)?;
    let at = small(&mut words)?;
    if words.is_done() {
        Some((word, bits, at))
    } else {
        None
    }
}

// An index, or a word, that isn't in the vector, and the vector's length.
fn bad_index(line: &Words, lead: &[u8]) -> Option<(u32, u32)>
    ensures { Found (λ v. (v.0, (v.1, tt))) result ((bad_row lead.now).values line.now) }
{
    let mut words = line.again();
    if !words.skip(lead) {
        return None;
    }
    let index = small(&mut words)?;
    if !words.skip(b"BADINDEX") {
        return None;
    }
    let len = small(&mut words)?;
    if words.is_done() {
        Some((index, len))
    } else {
        None
    }
}

// What was shown of the structure, behind its name.
fn behind(kind: Kind, on: StrNo, line: &Words) -> Option<Shown>
    ensures { result ≡ first_of (behind_forms kind on) line.now }
{
    if let Some(no) = call(line) {
        return Some(Shown::Call { on, no });
    }
    if let Some((index, bit, at)) = test(kind, line) {
        return Some(Shown::Test { on, index, bit, at });
    }
    if let Some((word, bits, at)) = word(line) {
        return Some(Shown::Word { on, word, bits, at });
    }
    if let Some((index, len)) = bad_index(line, b"TEST") {
        return Some(Shown::BadIndex {
            on,
            index,
            word: false,
            len,
        });
    }
    if let Some((index, len)) = bad_index(line, b"TESTWORD") {
        return Some(Shown::BadIndex {
            on,
            index,
            word: true,
            len,
        });
    }
    if let Some(sure) = labelled(line, b"POST") {
        return Some(Shown::Posted { on, sure });
    }
    let sure = labelled(line, b"TAKE")?;
    Some(Shown::Took { on, sure })
}

// Takes the name of a structure.
fn structure(structures: &[StrForm], words: &mut Words) -> Option<StrNo>
    requires { length structures.now ≤ STRUCTURES }
    ensures { Takes result words.new (on_first (structure_of structures.now) words.old) }
{
    let word = words.next()?;
    structure_number(structures, word)
}

// What was shown of this structure.
fn shown_at(structures: &[StrForm], on: StrNo, line: &Words) -> Option<Shown>
    ensures { result ≡ first_of (behind_forms (kind_of structures.now on) on) line.now }
{
    behind(kind_of(structures, on), on, line)
}

// What was shown.
fn shown(structures: &[StrForm], line: &Words) -> Option<Shown>
    requires { length structures.now ≤ STRUCTURES }
    ensures { result ≡ (shown_row structures.now).values line.now }
{
    let mut words = line.again();
    let on = structure(structures, &mut words)?;
    shown_at(structures, on, &words)
}

// What was shown, by a line.
fn shown_in(structures: &[StrForm], line: &[u8]) -> Option<Shown>
    requires { length structures.now ≤ STRUCTURES }
    ensures { result ≡ line_value (shown_row structures.now) line.now }
{
    if !is_spaced(line) {
        return None;
    }
    shown(structures, &Words::of(line))
}

/// Reads one item of a transcript from its line, without the line feed: what prints as exactly this
/// line. `None` where no item prints so: one of a structure of the script, with numbers of 32 bits,
/// and a bit only of a structure with vectors.
#[tactic(auto, using(crate::proofs::ItemLaws::item_found, crate::proofs::ItemLaws::item_none))]
pub fn read_item(script: &Script, line: &[u8]) -> Option<Shown>
    requires { KeepsLimits script.now }
    ensures found { IfSome result (λ shown. (shown_line script.now shown ≡ line.now)
        × IsItem script.now shown) }
    ensures none { IfNone result ((shown : Shown) → IsItem script.now shown
        → shown_line script.now shown ≡ line.now → ⊥) }
{
    shown_in(script.structures.items(), line)
}
