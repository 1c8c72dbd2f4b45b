ghost use Rattle.std.specs.Prelude.{◌≡◌, ◌↔◌, ℕ, ◌≤◌, length, IsOk, IfOk, IfErr};
ghost use Rattle.cf_types.specs.declared.limits.TheConstants.{ADJUNCT_BYTES};
ghost use Rattle.cf_types.specs.Term.{IsTerm, IsFaultOf};
ghost use Rattle.cf_types.specs.Filled.{adjunct_block};

use crate::limits::ADJUNCT_BYTES;
use crate::names::{NameFault, checked};
use std::marker::Model;

/// An adjunct of an entry, or the record data of a lock: 1 to 64 bytes. It is copied, and takes no
/// memory.
#[derive(Clone, Copy)]
pub struct Adjunct {
    bytes: [u8; ADJUNCT_BYTES],
    len: u8,
}

impl Model for Adjunct {
    ghost use Rattle.std.specs.Prelude.{ℕ, List, take};

    ghost Value = { List ℕ };

    ghost use Rattle.cf_types.specs.AdjunctBytes.{IsFilled, adjunct_inside, adjunct_inside-take};

    ghost view = { λ a. take a.len a.bytes };

    ghost invariant = { IsFilled };

    ghost inverse = { adjunct_inside };

    ghost inverse_ok = { adjunct_inside-take };
}

impl Adjunct {
    /// The bytes, 1 to 64 of them.
    pub fn bytes(&self) -> &[u8]
        ensures value { result.now ≡ self.now }
    {
        let len = self.len as usize;
        &self.bytes[..len]
    }
}

/// Reads an adjunct: 1 to 64 term characters.
pub fn parse_adjunct(text: &[u8]) -> Result<Adjunct, NameFault>
    ensures term { IsOk result ↔ IsTerm ADJUNCT_BYTES text.now }
    ensures adjunct { IfOk result (λ adjunct. adjunct ≡ text.now) }
    ensures fault { IfErr result (IsFaultOf ADJUNCT_BYTES text.now) }
{
    checked(text, ADJUNCT_BYTES)?;
    Ok(Adjunct {
        bytes: filled_bytes(text),
        len: text.len() as u8,
    })
}

// The text, which has at most 64 bytes, and zeros behind it.
fn filled_bytes(text: &[u8]) -> [u8; ADJUNCT_BYTES]
    requires { length text.now ≤ ADJUNCT_BYTES }
    ensures { result ≡ adjunct_block text.now }
{
    let mut bytes = [0; ADJUNCT_BYTES];
    let (front, _) = bytes.split_at_mut(text.len());
    front.copy_from_slice(text);
    bytes
}
