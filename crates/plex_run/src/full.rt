ghost use Rattle.std.specs.Prelude.{◌≡◌};
ghost use Rattle.plex_run.specs.Full.{ends_full_at, is_full_at, full_structure};

use plex_load::scripts::{AgentEnd, Transcript};
use plex_load::types::{Name16, StrForm};

// Whether a caller's work ended at the full journal of the structure with this number.
fn ends_full_at(end: &AgentEnd, place: usize) -> bool
    ensures { result ≡ ends_full_at place end.now }
{
    match end {
        AgentEnd::JournalFull { on } => on.0 as usize == place,
        AgentEnd::Done | AgentEnd::NoMemory(_) => false,
    }
}

fn is_full_at(transcripts: &[Transcript], place: usize) -> bool
    ensures { result ≡ is_full_at transcripts.now place }
{
    transcripts
        .iter()
        .any(|transcript| ends_full_at(&transcript.end, place))
}

/// The name of the first structure at whose full journal a caller's work ended.
pub(crate) fn full_structure(structures: &[StrForm], transcripts: &[Transcript]) -> Option<Name16>
    ensures { result ≡ full_structure structures.now transcripts.now }
{
    for place in 0..structures.len() {
        if is_full_at(transcripts, place) {
            return Some(structures[place].name);
        }
    }
    None
}
