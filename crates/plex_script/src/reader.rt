ghost use Rattle.std.specs.Prelude.{◌≡◌, ◌==◌, ◌<◌, ◌∷◌, length, position, IfOk, IfErr};
ghost use Rattle.plex_plain.specs.PlexSpell.Words.{lines_of, without_return};
ghost use Rattle.plex_script.specs.Scripts.{IsScript, empty_script};
ghost use Rattle.plex_script.specs.Reading.{TellsFault, script_of, fault_at};

use crate::draft::Draft;
use crate::faults::ReadFault;
use crate::line_faults::LineFault;
use crate::line_reader::add_line;
use crate::scripts::Script;
use cf_types::Listing;
use std::alloc::Global;

// The place of the first line feed.
fn feed_place(text: &[u8]) -> Option<usize>
    ensures { result ≡ position (λ b. b == 10) text.now }
{
    text.iter().position(|byte| *byte == b'\n')
}

// A line without the carriage return at its end.
#[tactic(auto, using(crate::proofs::ReadLaws::returns_read))]
fn without_return(line: &[u8]) -> &[u8]
    ensures { result.now ≡ without_return line.now }
{
    if line.is_empty() {
        return line;
    }
    let last = line.len() - 1;
    if line[last] == b'\r' {
        &line[..last]
    } else {
        line
    }
}

// The line that a text begins with, without what ends it, and the text behind it.
#[tactic(auto, using(crate::proofs::ReadLaws::lines_read))]
fn first_line(text: &[u8]) -> (&[u8], &[u8])
    requires { 0 < length text.now }
    ensures lines { lines_of text.now ≡ result.0.now ∷ lines_of result.1.now }
    ensures shorter { length result.1.now < length text.now }
{
    match feed_place(text) {
        Some(place) => (without_return(&text[..place]), &text[place + 1..]),
        None => (text, &text[text.len()..]),
    }
}

fn finished(draft: Draft) -> Script
    ensures { result ≡ script_of draft }
{
    let Draft {
        facilities,
        structures,
        connectors,
        lines,
    } = draft;
    Script {
        facilities: Listing::from_vec(facilities),
        structures: Listing::from_vec(structures),
        connectors: Listing::from_vec(connectors),
        lines: Listing::from_vec(lines),
    }
}

fn empty(alloc: Global) -> Draft
    ensures { script_of result ≡ empty_script }
{
    Draft {
        facilities: Vec::new(alloc),
        structures: Vec::new(alloc),
        connectors: Vec::new(alloc),
        lines: Vec::new(alloc),
    }
}

// What a fault of the line with this number is to the reader of a text.
fn fault_at(line: u32, fault: LineFault) -> ReadFault
    ensures { result ≡ fault_at line fault }
{
    match fault {
        LineFault::Wrong(why) => ReadFault::Script { line, why },
        LineFault::NoMemory(cause) => ReadFault::NoMemory(cause),
    }
}

/// Reads a script. The fault is the first line that is wrong, with the cause that is tried first,
/// or want of memory.
pub fn read(alloc: Global, text: &[u8]) -> Result<Script, ReadFault>
    // What is read is what the text says.
    ensures script { IfOk result (IsScript text.now) }

    // What is refused is no script: this line is the first that is wrong.
    ensures fault { IfErr result (TellsFault text.now) }
{
    let mut draft = empty(alloc);
    let mut number = 0u32;
    let mut rest = text;
    while !rest.is_empty() {
        let (line, more) = first_line(rest);
        number = number.saturating_add(1);
        match add_line(alloc, &mut draft, number, line) {
            Ok(()) => {}
            Err(fault) => return Err(fault_at(number, fault)),
        }
        rest = more;
    }
    Ok(finished(draft))
}
