//! The headings of histories and transcripts.

ghost use Rattle.std.specs.Prelude.{◌≡◌, ◌<◌, ◌≤◌, ◌^◌, ℕ, length, codes, IfSome, IfNone};
ghost use Rattle.plex_script.specs.Limits.{KeepsLimits};
ghost use Rattle.plex_report.specs.Naming.{caller_name, structure_name};
ghost use Rattle.plex_report.specs.Lines.{heading};
ghost use Rattle.reply_read.specs.Found.{Found};
ghost use Rattle.report_lines.specs.Headings.{heading_row};
ghost use Rattle.report_lines.specs.Spaced.{line_value};

use crate::names::{caller_text, structure_text};
use crate::spaced::is_spaced;
use plex_script::Script;
use plex_spell::Words;
use reply_read::wide_number;

// The number in a heading with this word and this name.
fn number_in(line: &[u8], word: &[u8], name: &[u8]) -> Option<u64>
    ensures { Found (λ v. (v, tt)) result (line_value (heading_row word.now name.now) line.now) }
{
    if !is_spaced(line) {
        return None;
    }
    let mut words = Words::of(line);
    if !words.skip(word) || !words.skip(name) {
        return None;
    }
    let number = wide_number(words.next()?)?;
    if words.is_done() { Some(number) } else { None }
}

/// How many entries follow the heading of a structure's history. `None` where the line is no such
/// heading with a number of at most 64 bits.
#[tactic(auto, using(crate::proofs::HeadingLaws::history_found, crate::proofs::HeadingLaws::history_none))]
pub fn history_heading(script: &Script, number: usize, line: &[u8]) -> Option<u64>
    requires keeps { KeepsLimits script.now }
    requires known { number < length script.now.structures }
    ensures found { IfSome result (λ n. heading (codes "HISTORY")
        (structure_name script.now number) n ≡ line.now) }
    ensures none { IfNone result ((n : ℕ) → n < 2 ^ 64 → heading (codes "HISTORY")
        (structure_name script.now number) n ≡ line.now → ⊥) }
{
    number_in(
        line,
        b"HISTORY",
        structure_text(script.structures.items(), number),
    )
}

/// How many items follow the heading of a caller's transcript; the operator is caller 0, and the
/// connectors follow. `None` where the line is no such heading with a number of at most 64 bits.
#[tactic(auto, using(crate::proofs::HeadingLaws::transcript_found, crate::proofs::HeadingLaws::transcript_none))]
pub fn transcript_heading(script: &Script, number: usize, line: &[u8]) -> Option<u64>
    requires keeps { KeepsLimits script.now }
    requires known { number ≤ length script.now.connectors }
    ensures found { IfSome result (λ n. heading (codes "TRANSCRIPT")
        (caller_name script.now number) n ≡ line.now) }
    ensures none { IfNone result ((n : ℕ) → n < 2 ^ 64 → heading (codes "TRANSCRIPT")
        (caller_name script.now number) n ≡ line.now → ⊥) }
{
    number_in(
        line,
        b"TRANSCRIPT",
        caller_text(script.connectors.items(), number),
    )
}
