//! The policy of a load: a facility, a cache structure there, and its four connectors.

ghost use Rattle.std.specs.Prelude.{◌≡◌, ◌<◌, ◌∷◌, [], IfOk};
ghost use Rattle.plex_load.specs.Generated.{letter, load_facility, load_form, load_connectors};

use crate::texts::name;
use plex_script::types::{Caps, CfId, Kind, Listing, Name16, NoMemory, Pref, StrForm};
use std::alloc::Global;

/// How many connectors there are.
pub(crate) const CALLERS: u8 = 4;

/// The letter of a connector, from 0: A, B, C or D.
pub(crate) fn letter(caller: u8) -> u8
    requires { caller < 4 }
    ensures { result ∷ [] ≡ letter caller }
{
    b'A' + caller
}

/// The facility.
pub(crate) fn facilities(alloc: Global) -> Result<Listing<Pref>, NoMemory>
    ensures { IfOk result (λ facilities. facilities ≡ load_facility ∷ []) }
{
    let facility = Pref {
        cf: CfId(1),
        units: 1_000,
    };
    Ok(Listing::from_vec(vec![in alloc; facility]?))
}

/// The structure.
pub(crate) fn structures(alloc: Global) -> Result<Listing<StrForm>, NoMemory>
    ensures { IfOk result (λ structures. structures ≡ load_form ∷ []) }
{
    let pref = Pref {
        cf: CfId(1),
        units: 512,
    };
    let form = StrForm {
        name: name(b"LOADCACHE"),
        kind: Kind::Cache,
        caps: Caps {
            entries: 256,
            elements: 256,
        },
        conns: CALLERS,
        vector: 64,
        keep: false,
        prefs: Listing::from_vec(vec![in alloc; pref]?),
    };
    Ok(Listing::from_vec(vec![in alloc; form]?))
}

/// The connectors.
pub(crate) fn connectors(alloc: Global) -> Result<Listing<Name16>, NoMemory>
    ensures { IfOk result (λ connectors. connectors ≡ load_connectors) }
{
    let names = [name(b"A"), name(b"B"), name(b"C"), name(b"D")];
    Ok(Listing::from_vec(Vec::from_slice(alloc, &names)?))
}
