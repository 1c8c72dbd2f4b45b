ghost use Rattle.std.specs.Prelude.{◌≡◌, ◌↔◌, ℕ, ◌≤◌, length, not, position, IsOk, IfOk, IfErr};
ghost use Rattle.cf_types.specs.declared.limits.TheConstants.{NAME_BYTES};
ghost use Rattle.cf_types.specs.Term.{IsTerm, IsFaultOf, block_of, term_byte};

use crate::limits::NAME_BYTES;

/// A name of 1 to 16 term characters, padded with blanks to 16 bytes. Names stand in the order of
/// their bytes.
#[derive(Clone, Copy, Debug, PartialEq, Eq, PartialOrd, Ord, Hash)]
pub struct Name16(pub [u8; NAME_BYTES]);

/// A list key of 1 to 16 term characters, padded with blanks to 16 bytes. Keys stand in the order
/// of their bytes.
#[derive(Clone, Copy, Debug, PartialEq, Eq, PartialOrd, Ord, Hash)]
pub struct Key16(pub [u8; NAME_BYTES]);

/// What is wrong with a text that should be a name, a key or an adjunct.
#[derive(Clone, Copy, Debug, PartialEq, Eq)]
pub enum NameFault {
    /// The text is empty (`at` is 0), or the byte at `at` is its first that is no term character.
    BadName { at: usize },
    /// The text has `len` bytes, which is past its limit.
    TooLong { len: usize },
}

// Whether a byte is a term character: a letter, a digit, `.`, `_` or `-`.
fn is_term_byte(byte: u8) -> bool
    ensures { result ≡ term_byte byte }
{
    byte.is_ascii_alphanumeric() || byte == b'.' || byte == b'_' || byte == b'-'
}

// The place of the first byte that is no term character.
fn first_fault(text: &[u8]) -> Option<usize>
    ensures { result ≡ position (λ b. not (term_byte b)) text.now }
{
    text.iter().position(|b| !is_term_byte(*b))
}

// A text of 1 to `limit` term characters, or its fault.
pub(crate) fn checked(text: &[u8], limit: usize) -> Result<(), NameFault>
    ensures term { IsOk result ↔ IsTerm limit text.now }
    ensures fault { IfErr result (IsFaultOf limit text.now) }
{
    if text.len() > limit {
        return Err(NameFault::TooLong { len: text.len() });
    }
    if text.is_empty() {
        return Err(NameFault::BadName { at: 0 });
    }
    match first_fault(text) {
        Some(at) => Err(NameFault::BadName { at }),
        None => Ok(()),
    }
}

// The text, which has at most 16 bytes, and blanks behind it.
fn padded_bytes(text: &[u8]) -> [u8; NAME_BYTES]
    requires { length text.now ≤ NAME_BYTES }
    ensures { result ≡ block_of text.now }
{
    let mut bytes = [b' '; NAME_BYTES];
    let (front, _) = bytes.split_at_mut(text.len());
    front.copy_from_slice(text);
    bytes
}

/// Reads a name of a cache entry or a list record: 1 to 16 term characters.
pub fn parse_name(text: &[u8]) -> Result<Name16, NameFault>
    ensures term { IsOk result ↔ IsTerm NAME_BYTES text.now }
    ensures name { IfOk result (λ name. name.0 ≡ block_of text.now) }
    ensures fault { IfErr result (IsFaultOf NAME_BYTES text.now) }
{
    checked(text, NAME_BYTES)?;
    Ok(Name16(padded_bytes(text)))
}

/// Reads a list key: 1 to 16 term characters.
pub fn parse_key(text: &[u8]) -> Result<Key16, NameFault>
    ensures term { IsOk result ↔ IsTerm NAME_BYTES text.now }
    ensures key { IfOk result (λ key. key.0 ≡ block_of text.now) }
    ensures fault { IfErr result (IsFaultOf NAME_BYTES text.now) }
{
    checked(text, NAME_BYTES)?;
    Ok(Key16(padded_bytes(text)))
}
