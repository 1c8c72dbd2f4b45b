ghost use Rattle.std.specs.Prelude.{◌≡◌, ◌≤◌, length, IfOk};
ghost use Rattle.cf_types.specs.declared.limits.TheConstants.{CONNECTORS};
ghost use Rattle.report_lines.specs.Parts.{reply_value};

use crate::spaced::is_spaced;
use cf_types::{Name16, NoMemory};
use engine_api::Reply;
use plex_spell::Words;
use reply_read::{Answer, reply};
use reply_rows::Side;
use std::alloc::Global;

/// Reads the reply of an entry from what stands behind the arrow: just what the rows read, where the
/// text has one blank between each two words. `None` where no reply with values in range prints so;
/// `side` is that of the entry's command, and `vary` whether it is VARY.
pub fn reply_in<T: Answer + Drop>(
    alloc: Global,
    connectors: &[Name16],
    text: &[u8],
    vary: bool,
    side: Side,
) -> Result<Option<Reply<T>>, NoMemory>
    requires { length connectors.now ≤ CONNECTORS }
    ensures { IfOk result (λ r. r ≡ reply_value connectors.now
        (T.answers connectors.now) vary side text.now) }
{
    if !is_spaced(text) {
        return Ok(None);
    }
    reply(alloc, connectors, &Words::of(text), vary, side)
}
