//! The lines of a report, each by itself.

ghost use Rattle.std.specs.Prelude.{◌≡◌, ◌∷◌, ◌++◌, [], codes, length, IfOk, OnOk};
ghost use Rattle.std.specs.Fmt.{decimal};
ghost use Rattle.plex_script.specs.PlexSpell.Words.{tail_of};
ghost use Rattle.plex_script.specs.PlexPlain.PolicyLines.{facility_line, form_line, pref_line, connector_line};
ghost use Rattle.plex_script.specs.Causes.{kind_of};
ghost use Rattle.plex_report.specs.Naming.{caller_name, structure_name};
ghost use Rattle.plex_report.specs.CommandWords.{ask_words};
ghost use Rattle.plex_report.specs.ReplyWords.{shell_reply_words};
ghost use Rattle.plex_report.specs.Lines.{heading, is_vary, is_of_vary, vary_words, ok_words, what_words, reply_words, entry_line, bit_word, binary_digits, test_word, shown_line};

use crate::line_text::{
    numbered, put_caller, put_caller_name, put_structure_name, structure_begun,
};
use crate::refusals::put_refusal;
use crate::spelled::Spelled;
use plex_script::api::{Ask, Entry, Reply, What};
use plex_script::plain::{
    put_connector_line, put_facility, put_facility_line, put_form_line, put_number, put_of,
    put_pref_line, put_word,
};
use plex_script::types::{
    ConnId, Kind, Name16, NoMemory, Pref, ShellCmd, ShellReply, StrForm, StrNo,
};
use plex_script::{Script, Shown};
use std::alloc::Global;

/// The line that declares a facility.
pub(crate) fn facility_line(alloc: Global, facility: &Pref) -> Result<Vec<u8>, NoMemory>
    ensures { IfOk result (λ line. line.items ≡ facility_line facility.now) }
{
    let mut line = Vec::new(alloc);
    put_facility_line(&mut line, facility)?;
    Ok(line)
}

/// The line that declares a structure.
pub(crate) fn form_line(alloc: Global, form: &StrForm) -> Result<Vec<u8>, NoMemory>
    ensures { IfOk result (λ line. line.items ≡ form_line form.now) }
{
    let mut line = Vec::new(alloc);
    put_form_line(&mut line, form)?;
    Ok(line)
}

/// The line that sets units of a facility aside for a structure.
pub(crate) fn pref_line(alloc: Global, form: &StrForm, pref: &Pref) -> Result<Vec<u8>, NoMemory>
    ensures { IfOk result (λ line. line.items ≡ pref_line form.now pref.now) }
{
    let mut line = Vec::new(alloc);
    put_pref_line(&mut line, form, pref)?;
    Ok(line)
}

/// The line that declares a connector.
pub(crate) fn connector_line(alloc: Global, name: &Name16) -> Result<Vec<u8>, NoMemory>
    ensures { IfOk result (λ line. line.items ≡ connector_line name.now) }
{
    let mut line = Vec::new(alloc);
    put_connector_line(&mut line, name)?;
    Ok(line)
}

/// The heading of the history of the structure with this number.
pub(crate) fn history_heading(
    alloc: Global,
    script: &Script,
    number: usize,
    count: usize,
) -> Result<Vec<u8>, NoMemory>
    ensures { IfOk result (λ line. line.items
        ≡ heading (codes "HISTORY") (structure_name script.now number) count) }
{
    let mut line = Vec::from_slice(alloc, b"HISTORY ")?;
    put_structure_name(&mut line, script, number)?;
    put_number(&mut line, count as u64)?;
    Ok(line)
}

/// The heading of the transcript of the caller with this number.
pub(crate) fn transcript_heading(
    alloc: Global,
    script: &Script,
    number: usize,
    count: usize,
) -> Result<Vec<u8>, NoMemory>
    ensures { IfOk result (λ line. line.items
        ≡ heading (codes "TRANSCRIPT") (caller_name script.now number) count) }
{
    let mut line = Vec::from_slice(alloc, b"TRANSCRIPT")?;
    put_caller_name(&mut line, script, number)?;
    put_number(&mut line, count as u64)?;
    Ok(line)
}

// Whether a command takes a facility from a structure, or gives it back.
fn is_vary(cmd: &ShellCmd) -> bool
    ensures { result ≡ is_vary cmd.now }
{
    matches!(cmd, ShellCmd::Vary { .. })
}

// Whether an entry is one of VARY.
fn is_of_vary<C>(what: &What<C>) -> bool
    ensures { result ≡ is_of_vary what.now }
{
    match what {
        What::Call(Ask::Shell(cmd)) => is_vary(cmd),
        What::Call(Ask::Content(_)) => false,
        What::Lost(_) => false,
    }
}

// OK, where a reply is a loss.
fn put_ok(line: &mut Vec<u8>, answer: &ShellReply) -> Result<(), NoMemory>
    ensures { OnOk result (line.new.items ≡ line.old.items ++ tail_of (vary_words answer.now)) }
{
    match answer {
        ShellReply::Simplex { .. } => put_word(line, b"OK"),
        ShellReply::Stopped { .. } => put_word(line, b"OK"),
        ShellReply::FailedNow => put_word(line, b"OK"),
        _ => Ok(()),
    }
}

// A reply to a common command, or of a loss.
fn put_outcome(
    line: &mut Vec<u8>,
    script: &Script,
    vary: bool,
    answer: &ShellReply,
) -> Result<(), NoMemory>
    ensures { OnOk result (line.new.items ≡ line.old.items
        ++ tail_of (ok_words vary answer.now ++ shell_reply_words script.now answer.now)) }
{
    if vary {
        put_ok(line, answer)?;
    }
    answer.put(line, script)
}

/// Puts the words of a reply, behind OK where a VARY brought about a loss.
pub(crate) fn put_reply<R: Spelled>(
    line: &mut Vec<u8>,
    script: &Script,
    vary: bool,
    reply: &Reply<R>,
) -> Result<(), NoMemory>
    ensures { OnOk result (line.new.items ≡ line.old.items
        ++ tail_of (reply_words R.words script.now vary reply.now)) }
{
    match reply {
        Reply::Shell(answer) => put_outcome(line, script, vary, answer),
        Reply::Content(answer) => answer.put(line, script),
        Reply::Refused(refusal) => {
            put_word(line, b"REFUSED")?;
            put_refusal(line, script, refusal)
        }
    }
}

fn put_ask<C: Spelled>(line: &mut Vec<u8>, script: &Script, ask: &Ask<C>) -> Result<(), NoMemory>
    ensures { OnOk result (line.new.items ≡ line.old.items
        ++ tail_of (ask_words C.words script.now ask.now)) }
{
    match ask {
        Ask::Shell(cmd) => cmd.put(line, script),
        Ask::Content(cmd) => cmd.put(line, script),
    }
}

fn put_what<C: Spelled>(
    line: &mut Vec<u8>,
    script: &Script,
    by: ConnId,
    what: &What<C>,
) -> Result<(), NoMemory>
    ensures { OnOk result (line.new.items ≡ line.old.items
        ++ tail_of (what_words C.words script.now by what.now)) }
{
    match what {
        What::Call(ask) => {
            put_caller(line, script, by)?;
            put_ask(line, script, ask)
        }
        What::Lost(cf) => {
            put_word(line, b"SYS LOST")?;
            put_facility(line, *cf)
        }
    }
}

/// The line of an entry: its number, who did what, and the reply.
pub(crate) fn entry_line<C: Spelled, R: Spelled>(
    alloc: Global,
    script: &Script,
    entry: &Entry<C, R>,
) -> Result<Vec<u8>, NoMemory>
    ensures { IfOk result (λ line. line.items ≡ entry_line C.words R.words script.now entry.now) }
{
    let mut line = numbered(alloc, u64::from(entry.no))?;
    put_what(&mut line, script, entry.by, &entry.what)?;
    put_word(&mut line, b"->")?;
    put_reply(&mut line, script, is_of_vary(&entry.what), &entry.reply)?;
    Ok(line)
}

// The kind of a structure.
fn kind_of(script: &Script, on: StrNo) -> Kind
    ensures { result ≡ kind_of script.now.structures on }
{
    match script.structures.items().get(on.0 as usize) {
        Some(form) => form.kind,
        None => Kind::Cache,
    }
}

// What a bit says.
fn bit_text(kind: Kind, bit: bool) -> &'static [u8]
    ensures { result.now ≡ bit_word kind bit }
{
    match kind {
        Kind::Cache => if bit { b"VALID" } else { b"INVALID" },
        Kind::List { .. } => if bit { b"NOTEMPTY" } else { b"EMPTY" },
        Kind::Lock => if bit { b"VALID" } else { b"INVALID" },
    }
}

// Puts 32 binary digits to a line, the lowest first.
#[tactic(auto, using(crate::proofs::Digits::line_more, crate::proofs::Digits::digits_end))]
fn put_bits(line: &mut Vec<u8>, bits: u32) -> Result<(), NoMemory>
    ensures { OnOk result (line.new.items ≡ line.old.items
        ++ tail_of (binary_digits 32 bits ∷ [])) }
{
    put_word(line, b"")?;
    let mut left = bits;
    'digits: for _i in 0..32_usize {
        line.push(b'0' + (left % 2) as u8)?;
        left /= 2;
    }
    Ok(())
}

// A test of a bit.
fn put_test(line: &mut Vec<u8>, index: u32, bit: &[u8], at: u32) -> Result<(), NoMemory>
    ensures { OnOk result (line.new.items ≡ line.old.items
        ++ tail_of (codes "TEST" ∷ decimal index ∷ bit.now ∷ decimal at ∷ [])) }
{
    put_of(line, b"TEST", index)?;
    put_of(line, bit, at)
}

// A test of a word.
fn put_word_test(line: &mut Vec<u8>, word: u32, bits: u32, at: u32) -> Result<(), NoMemory>
    ensures { OnOk result (line.new.items ≡ line.old.items
        ++ tail_of (codes "TESTWORD" ∷ decimal word ∷ binary_digits 32 bits ∷ decimal at ∷ [])) }
{
    put_of(line, b"TESTWORD", word)?;
    put_bits(line, bits)?;
    put_number(line, u64::from(at))
}

// Whether a bit was tested, or a word.
fn test_text(word: bool) -> &'static [u8]
    ensures { result.now ≡ test_word word }
{
    if word { b"TESTWORD" } else { b"TEST" }
}

// A test past the vector.
fn put_bad_index(line: &mut Vec<u8>, index: u32, word: bool, len: u32) -> Result<(), NoMemory>
    ensures { OnOk result (line.new.items ≡ line.old.items
        ++ tail_of (test_word word ∷ decimal index ∷ codes "BADINDEX" ∷ decimal len ∷ [])) }
{
    put_of(line, test_text(word), index)?;
    put_of(line, b"BADINDEX", len)
}

/// The line of an item of a transcript.
pub(crate) fn shown_line(alloc: Global, script: &Script, shown: &Shown) -> Result<Vec<u8>, NoMemory>
    ensures { IfOk result (λ line. line.items ≡ shown_line script.now shown.now) }
{
    match shown {
        Shown::Call { on, no } => {
            let mut line = structure_begun(alloc, script, *on)?;
            put_number(&mut line, u64::from(*no))?;
            Ok(line)
        }
        Shown::Test { on, index, bit, at } => {
            let mut line = structure_begun(alloc, script, *on)?;
            put_test(&mut line, *index, bit_text(kind_of(script, *on), *bit), *at)?;
            Ok(line)
        }
        Shown::Word { on, word, bits, at } => {
            let mut line = structure_begun(alloc, script, *on)?;
            put_word_test(&mut line, *word, *bits, *at)?;
            Ok(line)
        }
        Shown::BadIndex {
            on,
            index,
            word,
            len,
        } => {
            let mut line = structure_begun(alloc, script, *on)?;
            put_bad_index(&mut line, *index, *word, *len)?;
            Ok(line)
        }
        Shown::Posted { on, sure } => {
            let mut line = structure_begun(alloc, script, *on)?;
            put_of(&mut line, b"POST", *sure)?;
            Ok(line)
        }
        Shown::Took { on, sure } => {
            let mut line = structure_begun(alloc, script, *on)?;
            put_of(&mut line, b"TAKE", *sure)?;
            Ok(line)
        }
    }
}
