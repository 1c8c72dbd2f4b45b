use cf_types::Name16;

/// A name whose row is changed, and its castout class (1 to 16).
#[derive(Clone, Copy, PartialEq, Eq)]
pub struct Changed {
    pub name: Name16,
    pub class: u32,
}
