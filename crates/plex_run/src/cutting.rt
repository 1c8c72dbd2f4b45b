//! A text in two parts: a script, and what stands behind the line that ends it.
ghost use Rattle.std.specs.Prelude.{◌≡◌, ◌==◌, ◌+◌, ◌<◌, ◌↔◌, None, IfSome, IsTrue, codes, drop, length, position};
ghost use Rattle.plex_run.specs.Cutting.{IsSplit, HasNoReport};

// The place of the first line feed.
fn feed_place(text: &[u8]) -> Option<usize>
    ensures { result ≡ position (λ b. b == 10) text.now }
{
    text.iter().position(|byte| *byte == b'\n')
}

// Whether a line is the one that ends the script.
fn is_report(line: &[u8]) -> bool
    ensures { IsTrue result ↔ (line.now ≡ codes "REPORT") }
{
    line == b"REPORT".as_slice()
}

// What stands behind the byte at this place.
#[tactic(auto, using(crate::proofs::CuttingLaws::rest_whole))]
fn behind(text: &[u8], place: usize) -> &[u8]
    requires { place < length text.now }
    ensures { result.now ≡ drop (place + 1) text.now }
{
    &text[place + 1..]
}

// What stands behind all of it.
fn nothing(text: &[u8]) -> &[u8]
    ensures { length result.now ≡ 0 }
{
    &text[text.len()..]
}

/// The script's part of a text and what stands behind the line `REPORT`, the first of exactly these
/// six bytes, if there is one.
pub(crate) fn cut(text: &[u8]) -> Option<(&[u8], &[u8])>
    ensures split { IfSome result (λ parts. IsSplit text.now parts.0.now parts.1.now) }
    ensures none { result ≡ None → HasNoReport text.now }
{
    let mut at = 0;
    let mut rest = text;
    while let Some(place) = feed_place(rest) {
        let more = behind(rest, place);
        if is_report(&rest[..place]) {
            return Some((&text[..at], more));
        }
        at += place + 1;
        rest = more;
    }
    if is_report(rest) {
        return Some((&text[..at], nothing(rest)));
    }
    None
}
