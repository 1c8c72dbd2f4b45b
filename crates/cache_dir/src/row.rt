use cf_pool::Chain;
use cf_types::{Adjunct, ConnId, Name16};

/// Who holds the castout lock of an entry, and whether the entry was written since.
#[derive(Clone, Copy, PartialEq, Eq)]
pub struct Holder {
    pub conn: ConnId,
    pub rewritten: bool,
}

/// A row of the directory. Its data lie in a pool, where `stored` is their chain; it is changed
/// where it has a castout class (1 to 16); `stg` is its storage class (1 to 8).
#[derive(Drop)]
pub struct DirRow {
    pub name: Name16,
    pub stored: Option<Chain>,
    pub adj: Option<Adjunct>,
    pub class: Option<u32>,
    pub holder: Option<Holder>,
    pub stg: u32,
}
