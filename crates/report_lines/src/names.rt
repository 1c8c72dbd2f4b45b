ghost use Rattle.std.specs.Prelude.{◌≡◌, ◌<◌, ◌≤◌, length};
ghost use Rattle.plex_plain.specs.Naming.{caller_name, structure_name};

use cf_types::{Name16, StrForm};
use plex_spell::name_text;

/// The name of a caller by its number: the operator is 0, and the connectors follow.
pub(crate) fn caller_text(connectors: &[Name16], number: usize) -> &[u8]
    requires { number ≤ length connectors.now }
    ensures { result.now ≡ caller_name connectors.now number }
{
    if number == 0 {
        return b"OP";
    }
    name_text(&connectors[number - 1])
}

/// The name of a structure by its number.
pub(crate) fn structure_text(structures: &[StrForm], number: usize) -> &[u8]
    requires { number < length structures.now }
    ensures { result.now ≡ structure_name structures.now number }
{
    name_text(&structures[number].name)
}
