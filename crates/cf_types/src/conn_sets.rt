ghost use Rattle.std.specs.Prelude.{◌≡◌, ◌<◌, [], length};
ghost use Rattle.cf_types.specs.declared.limits.TheConstants.{SET_NUMBERS};
ghost use Rattle.cf_types.specs.ConnSets.{is_member, with_member, without_member};

use crate::numbers::ConnId;
use std::marker::Model;

/// A set of connectors, of numbers 0 to 127: bit c, counted from the least, is connector c.
/// Contracts see the list of its members, in number order.
#[derive(Clone, Copy)]
pub struct ConnSet(pub u128);

impl Model for ConnSet {
    ghost use Rattle.std.specs.Prelude.{List, ◌<◌, ◌^◌};
    ghost use Rattle.cf_types.specs.declared.numbers.ConnId.{ConnId};

    ghost Value = { List ConnId };

    ghost use Rattle.cf_types.specs.declared.limits.TheConstants.{SET_NUMBERS};
    ghost use Rattle.cf_types.specs.ConnSets.{members, bits_of};
    ghost use Rattle.cf_types.specs.MemberLaws.{bits_of-members};

    ghost view = { λ s. members s.0 };

    ghost invariant = { λ s. s.0 < 2 ^ SET_NUMBERS };

    ghost inverse = { λ set. record { 0 = bits_of set } };

    ghost inverse_ok = { bits_of-members };
}

impl ConnSet {
    /// The set without members.
    pub fn none() -> ConnSet
        ensures { result ≡ [] }
    {
        ConnSet(0)
    }

    /// Whether a connector is a member.
    pub fn has(&self, conn: ConnId) -> bool
        requires { conn.0 < SET_NUMBERS }
        ensures { result ≡ is_member conn self.now }
    {
        self.0 & (1 << conn.0) != 0
    }

    /// The set with one more member.
    pub fn with(self, conn: ConnId) -> ConnSet
        requires { conn.0 < SET_NUMBERS }
        ensures { result ≡ with_member conn self }
    {
        ConnSet(self.0 | (1 << conn.0))
    }

    /// The set without a member.
    pub fn without(self, conn: ConnId) -> ConnSet
        requires { conn.0 < SET_NUMBERS }
        ensures { result ≡ without_member conn self }
    {
        ConnSet(self.0 & !(1 << conn.0))
    }

    /// How many members there are.
    pub fn len(&self) -> u32
        ensures { result ≡ length self.now }
    {
        self.0.count_ones()
    }
}
