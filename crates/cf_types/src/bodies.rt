ghost use Rattle.std.specs.Prelude.{◌≡◌, ℕ, ◌≤◌, Some, length, OnOk, IfOk, IfErr};
ghost use Rattle.cf_types.specs.declared.limits.TheConstants.{BODY_BYTES};
ghost use Rattle.cf_types.specs.Term.{IsTerm};
ghost use Rattle.cf_types.specs.Stored.{elements_of, IsBodyFaultOf};

use crate::limits::{BODY_BYTES, ELEMENT_BYTES};
use crate::names::{NameFault, checked};
use no_memory::NoMemory;
use std::alloc::Global;
use std::marker::Model;

/// The data of a cache entry or a list record: 1 to 4,096 bytes.
#[derive(Drop)]
pub struct Body {
    bytes: Vec<u8>,
}

impl Model for Body {
    ghost use Rattle.std.specs.Prelude.{ℕ, List, length, ◌≤◌};
    ghost use Rattle.cf_types.specs.declared.limits.TheConstants.{BODY_BYTES};

    ghost Value = { List ℕ };

    ghost view = { λ b. b.bytes.items };

    ghost invariant = { λ b. (1 ≤ length b.bytes.items) × (length b.bytes.items ≤ BODY_BYTES) };
}

/// What is wrong with a text that should be data.
#[derive(Debug, Drop)]
pub enum BodyFault {
    /// The text is empty (`at` is 0), or the byte at `at` is its first that is no term character.
    BadName { at: usize },
    /// The text has `len` bytes, which is more than 4,096.
    TooLong { len: usize },
    /// There was no memory for a copy of the text.
    NoMemory(NoMemory),
}

impl Body {
    /// The data that have these bytes.
    pub fn from_vec(bytes: Vec<u8>) -> Body
        requires some { 1 ≤ length bytes.items }
        requires few { length bytes.items ≤ BODY_BYTES }
        ensures { result ≡ bytes.items }
    {
        Body { bytes }
    }

    /// The bytes, 1 to 4,096 of them.
    pub fn bytes(&self) -> &[u8]
        ensures value { result.now ≡ self.now }
        ensures nonempty { 1 ≤ length self.now }
        ensures short { length self.now ≤ BODY_BYTES }
    {
        self.bytes.as_slice()
    }

    /// How many elements of 256 bytes the data take, 1 to 16; one that is filled in part counts
    /// whole.
    pub fn elements(&self) -> u32
        ensures elements { result ≡ elements_of (Some self.now) }
        ensures few { result ≤ 16 }
    {
        ((self.bytes.len() + (ELEMENT_BYTES - 1)) / ELEMENT_BYTES) as u32
    }
}

/// How many elements of 256 bytes data take; none where there are no data.
pub fn elements_of(body: &Option<Body>) -> u32
    ensures elements { result ≡ elements_of body.now }
    ensures few { result ≤ 16 }
{
    match body {
        None => 0,
        Some(body) => body.elements(),
    }
}

/// Reads data: 1 to 4,096 term characters.
pub fn parse_body(alloc: Global, text: &[u8]) -> Result<Body, BodyFault>
    ensures term { OnOk result (IsTerm BODY_BYTES text.now) }
    ensures body { IfOk result (λ body. body ≡ text.now) }
    ensures fault { IfErr result (IsBodyFaultOf text.now) }
{
    match checked(text, BODY_BYTES) {
        Err(NameFault::BadName { at }) => Err(BodyFault::BadName { at }),
        Err(NameFault::TooLong { len }) => Err(BodyFault::TooLong { len }),
        Ok(()) => match Vec::from_slice(alloc, text) {
            Ok(bytes) => Ok(Body { bytes }),
            Err(refused) => Err(BodyFault::NoMemory(NoMemory::from(refused))),
        },
    }
}

/// A second body of the same bytes.
pub fn copy_body(alloc: Global, body: &Body) -> Result<Body, NoMemory>
    ensures { IfOk result (λ copy. copy ≡ body.now) }
{
    let bytes = Vec::from_slice(alloc, body.bytes.as_slice())?;
    Ok(Body { bytes })
}

/// A copy of data, where there are any.
pub fn copy_data(alloc: Global, body: &Option<Body>) -> Result<Option<Body>, NoMemory>
    ensures { IfOk result (λ copy. copy ≡ body.now) }
{
    match body {
        None => Ok(None),
        Some(body) => Ok(Some(copy_body(alloc, body)?)),
    }
}
