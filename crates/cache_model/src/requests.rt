use cf_types::Name16;

/// What a command asks room for: the row of a name, and so many elements for its data. Rows of the
/// storage class are reclaimed before others.
#[derive(Clone, Copy)]
pub struct Request {
    pub name: Name16,
    pub elements: u32,
    pub stg: u32,
}
