use cf_types::Name16;

/// A name whose row is unchanged, and the row's storage class (1 to 8).
#[derive(Clone, Copy, PartialEq, Eq)]
pub struct Used {
    pub name: Name16,
    pub stg: u32,
}
