use cf_types::{ConnId, Name16};

/// A connector's registration for a name: the bit at this index of its vector (from 0) tells
/// whether its copy of the entry is valid.
#[derive(Clone, Copy, PartialEq, Eq)]
pub struct Registration {
    pub conn: ConnId,
    pub index: u32,
    pub name: Name16,
}
