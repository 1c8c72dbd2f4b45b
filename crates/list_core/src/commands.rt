//! The commands of a list structure, a file each: why one is refused, its reply, and what it does.
use cf_types::{At, Cond};

pub(crate) mod delete;
pub(crate) mod l_controls;
pub(crate) mod lock_reset;
pub(crate) mod lock_set;
pub(crate) mod lock_test;
pub(crate) mod monitor;
pub(crate) mod move_record;
pub(crate) mod read;
pub(crate) mod read_list;
pub(crate) mod set_limit;
pub(crate) mod unmonitor;
pub(crate) mod update;
pub(crate) mod write;

/// Of which record a command speaks, and what it asks before it is done: that the record has this
/// version, and how a list lock stands.
#[derive(Clone, Copy)]
pub(crate) struct Asked {
    pub at: At,
    pub version: Option<u32>,
    pub cond: Option<Cond>,
}
