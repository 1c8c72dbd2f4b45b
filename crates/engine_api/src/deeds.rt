use cf_types::{Caps, CfId, ConnId};

/// What a common command does to the instances and their content, in the order of the fields.
#[derive(Clone, Copy, PartialEq, Eq)]
pub struct Deeds {
    /// A failed connection is taken up again.
    pub back: Option<ConnId>,
    /// An empty instance is made in this facility: a rebuild's new one, or the primary.
    pub make: Option<CfId>,
    /// A second instance with the same content is made in this facility.
    pub second: Option<CfId>,
    /// The instance in this facility is dropped.
    pub drop_at: Option<CfId>,
    /// The new instance of a rebuild is emptied.
    pub restart: bool,
    /// The new instance takes the place of the old one.
    pub switch: bool,
    /// The new instance is dropped.
    pub drop_fresh: bool,
    /// All instances end, and the content with them.
    pub drop_all: bool,
}

/// What the engines know: what the primary's content needs, 0 in both numbers where no primary
/// stands; and how many items a rebuild has left to copy, 0 where no new instance stands.
#[derive(Clone, Copy, PartialEq, Eq)]
pub struct Room {
    pub need: Caps,
    pub left: u32,
}
