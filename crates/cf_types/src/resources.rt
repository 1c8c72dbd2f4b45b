use crate::names::Name16;

/// A resource that locks are held on: a name and a hash value, which make it together. Resources
/// stand in the order of their names, and of their hash values where the names are the same.
#[derive(Clone, Copy, Debug, PartialEq, Eq, PartialOrd, Ord, Hash)]
pub struct Resource {
    pub name: Name16,
    pub hash: u32,
}
