ghost use Rattle.std.specs.Prelude.{◌≡◌, IfOk};
ghost use Rattle.cf_types.specs.declared.limits.TheConstants.{BODY_BYTES};
ghost use Rattle.plex_spell.specs.declared.rigour.Rigour.TheVariants.{Names};
ghost use Rattle.plex_spell.specs.Places.{text_of};

use cf_types::limits::BODY_BYTES;
use cf_types::{Body, NoMemory};
use plex_spell::{Miss, Rigour, singles, texts};
use std::alloc::Global;

/// Reads data in full; `None` where the word is none.
pub(crate) fn full_body(alloc: Global, word: &[u8]) -> Result<Option<Body>, NoMemory>
    ensures { IfOk result (λ r. r ≡ text_of Names BODY_BYTES word.now) }
{
    let Some(text) = texts::text(Rigour::Names, word, BODY_BYTES) else {
        return Ok(None);
    };
    match singles::body(alloc, text) {
        Ok(body) => Ok(Some(body)),
        Err(Miss::NoMemory(cause)) => Err(cause),
        Err(Miss::NoForm) => Ok(None),
    }
}
