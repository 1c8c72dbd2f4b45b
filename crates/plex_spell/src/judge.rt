ghost use Rattle.std.specs.Prelude.{◌≤◌, length};
ghost use Rattle.cf_types.specs.declared.limits.TheConstants.{STRUCTURES, CONNECTORS};

use crate::rigour::Rigour;
use cf_types::{Name16, Pref, StrForm};

/// What words are judged by.
#[derive(Drop)]
pub struct Judge<'a> {
    pub rigour: Rigour,
    /// The facilities that are declared before the words.
    pub facilities: &'a [Pref],
    /// The structures that are declared before the words, at most 16.
    pub structures: &'a [StrForm],
    /// The connectors that are declared before the words, at most 64.
    pub connectors: &'a [Name16],
    ghost few_structures: { length structures.now ≤ STRUCTURES },
    ghost few_connectors: { length connectors.now ≤ CONNECTORS },
}
