//! Names and data.

ghost use Rattle.std.specs.Prelude.{◌≡◌, ◌++◌, IfOk};
ghost use Rattle.std.specs.Fmt.{decimal};
ghost use Rattle.plex_script.specs.CfTypes.declared.limits.TheConstants.{NAME_BYTES, BODY_BYTES};
ghost use Rattle.plex_script.specs.CfTypes.Term.{IsTerm};
ghost use Rattle.plex_load.specs.Generated.{named};

use plex_script::plain::put_digits;
use plex_script::types::{Body, BodyFault, Name16, NoMemory, parse_body, parse_name};
use std::alloc::Global;

/// The name that is written so.
pub(crate) fn name(text: &[u8]) -> Name16
    requires { IsTerm NAME_BYTES text.now }
    ensures { result ≡ named text.now }
{
    match parse_name(text) {
        Ok(name) => name,
        Err(_) => unreachable!(),
    }
}

/// These data.
pub(crate) fn data(alloc: Global, text: &[u8]) -> Result<Body, NoMemory>
    requires { IsTerm BODY_BYTES text.now }
    ensures { IfOk result (λ body. body ≡ text.now) }
{
    match parse_body(alloc, text) {
        Ok(body) => Ok(body),
        Err(BodyFault::NoMemory(cause)) => Err(cause),
        Err(BodyFault::BadName { .. }) => unreachable!(),
        Err(BodyFault::TooLong { .. }) => unreachable!(),
    }
}

/// A text with a number behind it.
pub(crate) fn numbered(alloc: Global, text: &[u8], number: u32) -> Result<Vec<u8>, NoMemory>
    ensures { IfOk result (λ whole. whole.items ≡ text.now ++ decimal number) }
{
    let mut whole = Vec::from_slice(alloc, text)?;
    put_digits(&mut whole, u64::from(number))?;
    Ok(whole)
}
