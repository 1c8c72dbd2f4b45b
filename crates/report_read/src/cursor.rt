//! A place in a text, and its next line.

ghost use Rattle.std.specs.Prelude.{◌≡◌, ◌<◌, ◌≤◌, drop, length, IfSome, IfNone};
ghost use Rattle.report_texts.specs.Texts.{feeds};
ghost use Rattle.report_read.specs.Lines.{IsPlaced, IsCut};

use cf_types::NoMemory;
use plex_spell::texts::cut;

/// Why a text is no report.
#[derive(Debug, Drop)]
pub enum TextBad {
    /// The first line, from 1, up to which the text is the front of no report.
    Line { line: u32 },
    /// There was no memory for what the text says.
    NoMemory(NoMemory),
}

impl From<NoMemory> for TextBad {
    ghost use Rattle.std.specs.Prelude.{◌≡◌};
    ghost use Rattle.report_read.specs.declared.cursor.TextBad.TheVariants as bad;

    ghost from_gives = { λ cause why. why ≡ bad.NoMemory cause };

    fn from(cause: NoMemory) -> Self {
        TextBad::NoMemory(cause)
    }
}

/// A place in a text, and how many lines end before it.
#[derive(Clone, Copy)]
pub(crate) struct Cursor {
    pub(crate) at: usize,
    pub(crate) count: u32,
}

// What stands from the place on.
#[tactic(auto, using(crate::proofs::LineLaws::all_left))]
fn rest_of(text: &[u8], from: Cursor) -> &[u8]
    requires { IsPlaced text.now from }
    ensures { result.now ≡ drop from.at text.now }
{
    &text[from.at..]
}

/// The line of the text that begins here, without its feed, and the place behind the feed. `None`
/// where no feed is left.
#[tactic(auto, using(crate::proofs::LineLaws::cut_found, crate::proofs::LineLaws::cut_none))]
pub(crate) fn next_line(text: &[u8], from: Cursor) -> Option<(&[u8], Cursor)>
    requires small { length text.now < 4294967295 }
    requires placed { IsPlaced text.now from }
    ensures found { IfSome result (λ step. IsCut text.now from step.0.now step.1) }
    ensures none { IfNone result (feeds (drop from.at text.now) ≡ 0) }
{
    let Some((line, _)) = cut(rest_of(text, from), b'\n') else {
        return None;
    };
    Some((
        line,
        Cursor {
            at: from.at + line.len() + 1,
            count: from.count + 1,
        },
    ))
}
