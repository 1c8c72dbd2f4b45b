ghost use Rattle.std.specs.Prelude.{◌≤◌, length};
ghost use Rattle.cf_types.specs.declared.limits.TheConstants.{STRUCTURES, CONNECTORS};

use crate::scripts::Line;
use cf_types::{Name16, Pref, StrForm};

/// A script as far as it is read, with no more structures and connectors than there may be.
#[derive(Drop)]
pub(crate) struct Draft {
    pub facilities: Vec<Pref>,
    pub structures: Vec<StrForm>,
    pub connectors: Vec<Name16>,
    pub lines: Vec<Line>,
    ghost few_structures: { length structures.items ≤ STRUCTURES },
    ghost few_connectors: { length connectors.items ≤ CONNECTORS },
}
