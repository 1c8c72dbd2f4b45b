//! Pages, and a cache structure with room for so many.
ghost use Rattle.std.specs.Prelude.{◌≤◌, IfOk};
ghost use Rattle.bench_parts.specs.CacheForms.{IsCacheForm};

use plex_board::types::{Caps, CfId, Kind, Listing, Name16, NoMemory, Pref, StrForm};
use std::alloc::Global;

/// A cache structure for so many rows, with room in one facility.
pub fn form(alloc: Global, rows: u32) -> Result<StrForm, NoMemory>
    requires some { 1 ≤ rows }
    requires most { rows ≤ 4096 }
    ensures { IfOk result IsCacheForm }
{
    let pref = Pref {
        cf: CfId(1),
        units: 100,
    };
    let prefs = Vec::from_slice(alloc, &[pref])?;
    Ok(StrForm {
        name: page(0),
        kind: Kind::Cache,
        caps: Caps {
            entries: rows,
            elements: rows,
        },
        conns: 32,
        vector: 64,
        keep: false,
        prefs: Listing::from_vec(prefs),
    })
}

// The last digit of a number.
fn digit(number: u32) -> u8 {
    (number % 10) as u8 + b'0'
}

/// The name of the page with this number, of which five digits count.
pub fn page(number: u32) -> Name16 {
    let mut bytes = [b' '; 16];
    bytes[0] = b'P';
    bytes[1] = digit(number / 10_000);
    bytes[2] = digit(number / 1_000);
    bytes[3] = digit(number / 100);
    bytes[4] = digit(number / 10);
    bytes[5] = digit(number);
    Name16(bytes)
}
