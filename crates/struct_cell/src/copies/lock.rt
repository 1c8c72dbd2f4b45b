//! Copies of the answers of a lock structure.
use crate::copies::replies::{TryClone, copy_listing};
use cf_types::{LockReply, NoMemory};
use std::alloc::Global;

impl TryClone for LockReply {
    fn try_clone(&self, alloc: Global) -> Result<Self, NoMemory> {
        match self {
            LockReply::Granted => Ok(LockReply::Granted),
            LockReply::Pending { place } => Ok(LockReply::Pending { place: *place }),
            LockReply::Ok => Ok(LockReply::Ok),
            LockReply::Records(records) => Ok(LockReply::Records(copy_listing(alloc, records)?)),
        }
    }
}
