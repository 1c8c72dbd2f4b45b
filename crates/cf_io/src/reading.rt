ghost use Rattle.std.specs.Prelude.{◌≡◌, ◌+◌, ◌<◌, ◌≤◌, ◌↔◌, length, vec_len, IfOk, IfErr, IfSome, IsErrOf, OnOk};
ghost use Rattle.std.specs.Io.KnownBytes.{IsAtEnd};
ghost use Rattle.cf_io.specs.Count.{Rises};
ghost use Rattle.cf_io.specs.ReadEnd.{HasCause};
ghost use Rattle.cf_io.specs.Taken.{TakesAtMost};
ghost use Rattle.no_memory.specs.Wants.{want};

use crate::{ReadEnd, Source};
use std::alloc::Global;

// How many bytes one read asks for at most.
const PIECE: usize = 4096;

/// Reads all that the source has left, at most `limit` bytes. It makes at most `limit + 1` reads,
/// and takes at most `limit + 1` bytes. What its reads took is gone from the source, whatever the
/// answer.
///
/// # Errors
///
/// - `ReadFault` where a read failed.
/// - `TooLong` where more than `limit` bytes came.
/// - `NoMemory` where there was no memory for the bytes.
pub fn read_all<S: Source>(alloc: Global, source: &mut S, limit: usize) -> Result<Vec<u8>, ReadEnd>
    // An Ok holds all the bytes that were left, and none is left now.
    ensures whole { IfOk result (λ text. IfSome (S.left source.old) (λ bytes. text.items ≡ bytes)) }
    ensures end { OnOk result (IsAtEnd (S.left source.new)) }
    ensures fits { IfOk result (λ text. vec_len text ≤ limit) }

    // An error has its cause, and in the absence of faults and of want of memory, length decides.
    ensures cause { IfErr result (HasCause limit (S.left source.old) (S.faults source.old)
        (S.faults source.new)) }
    ensures too_long { IfSome (S.left source.old) (λ bytes.
        ¬ Rises (S.faults source.old) (S.faults source.new)
        → ¬ IsErrOf result (ReadEnd.NoMemory want)
        → IsErrOf result (ReadEnd.TooLong limit) ↔ (limit < length bytes)) }

    // Whatever the answer, what is left is what was left without the bytes that were taken.
    ensures taken { TakesAtMost (limit + 1) (S.left source.old) (S.left source.new) }

    // The counts.
    ensures faults { S.faults source.old ≤ S.faults source.new }
    ensures calls { S.calls source.new ≤ S.calls source.old + limit + 1 }
{
    let mut text = Vec::new(alloc);
    let mut piece = [0; PIECE];
    while text.len() <= limit {
        // One byte past the limit is enough to tell that there are more.
        let asked = (limit - text.len()).saturating_add(1).min(PIECE);
        let count = source.read(&mut piece[..asked])?;
        if count == 0 {
            return Ok(text);
        }
        text.extend_from_slice(&piece[..count])?;
    }
    Err(ReadEnd::TooLong { limit })
}
