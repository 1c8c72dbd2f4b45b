/// The number of a facility, 1 to 4; it prints as `CF1` to `CF4`.
#[derive(Clone, Copy, Debug, PartialEq, Eq, Hash)]
pub struct CfId(pub u8);

/// The number of a caller of a structure: 0 is the operator, and connectors count from 1 in the
/// order in which a script declares them.
#[derive(Clone, Copy, Debug, PartialEq, Eq, Hash)]
pub struct ConnId(pub u8);

/// The number of a list record, from 1, never used again.
#[derive(Clone, Copy, Debug, PartialEq, Eq, Hash)]
pub struct EntryId(pub u64);

/// The number of a structure, from 0 in the order in which a script declares them.
#[derive(Clone, Copy, Debug, PartialEq, Eq, Hash)]
pub struct StrNo(pub u8);
