//! The pages that are read, with a cache structure that has room for them.
ghost use Rattle.std.specs.Prelude.{◌≡◌, IfOk};
ghost use Rattle.bench_parts.specs.Seats.{IsCacheForm};

use plex_board::types::{
    Body, CacheCmd, Caps, CfId, Kind, Listing, Name16, NoMemory, Pref, StrForm,
};
use std::alloc::Global;

/// How many pages there are. A vector has a bit for each.
pub const PAGES: u32 = 32;

/// The data of each page.
const DATA: &[u8] = b"0123456789abcdef0123456789abcdef0123456789abcdef0123456789abcdef";

/// A cache structure for the pages, with room in two facilities.
pub fn form(alloc: Global) -> Result<StrForm, NoMemory>
    ensures { IfOk result IsCacheForm }
{
    let prefs = Vec::from_slice(alloc, &[pref(CfId(1)), pref(CfId(2))])?;
    Ok(StrForm {
        name: name(b'S', 0),
        kind: Kind::Cache,
        caps: Caps {
            entries: PAGES,
            elements: PAGES,
        },
        conns: 1,
        vector: PAGES,
        keep: false,
        prefs: Listing::from_vec(prefs),
    })
}

// Room in a facility.
fn pref(cf: CfId) -> Pref
    ensures { result ≡ record { cf = cf; units = 100 } }
{
    Pref { cf, units: 100 }
}

/// A letter with a number of two digits, the last of it.
pub fn name(letter: u8, number: u8) -> Name16 {
    let mut bytes = [b' '; 16];
    bytes[0] = letter;
    bytes[1] = b'0' + number / 10 % 10;
    bytes[2] = b'0' + number % 10;
    Name16(bytes)
}

// The name of the page with this number, counted round.
fn page(k: u32) -> Name16 {
    name(b'P', (k % PAGES) as u8)
}

/// READ_DATA of a page at its own index, counted round.
pub fn read(k: u32) -> CacheCmd {
    CacheCmd::Read {
        name: page(k),
        index: k % PAGES,
        old: None,
        stg: 1,
    }
}

/// WRITE_DATA of a page at its own index, counted round.
pub fn write(alloc: Global, k: u32) -> Result<CacheCmd, NoMemory> {
    let body = Body::from_vec(Vec::from_slice(alloc, DATA)?);
    Ok(CacheCmd::Write {
        name: page(k),
        index: k % PAGES,
        body,
        class: None,
        adj: None,
        old: None,
        stg: 1,
        when_reg: false,
    })
}
