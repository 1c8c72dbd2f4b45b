use cf_types::Key16;

/// A sublist: the records of a header (from 0) that have a key.
#[derive(Clone, Copy)]
pub struct Sublist {
    pub header: u32,
    pub key: Key16,
}

/// The sublists that a command may turn: it may leave the one without records, and the other with
/// some where it had none.
#[derive(Clone, Copy)]
pub struct Turning {
    pub empties: Option<Sublist>,
    pub fills: Option<Sublist>,
}
