//! Copies of the answers of a structure whose capacity is altered.
use crate::copies::replies::TryClone;
use cf_types::{AlterReply, NoMemory};
use std::alloc::Global;

impl<R: TryClone> TryClone for AlterReply<R> {
    fn try_clone(&self, alloc: Global) -> Result<Self, NoMemory> {
        match self {
            AlterReply::Inner(answer) => Ok(AlterReply::Inner(answer.try_clone(alloc)?)),
            AlterReply::Ok => Ok(AlterReply::Ok),
            AlterReply::Altered { caps, done } => Ok(AlterReply::Altered {
                caps: *caps,
                done: *done,
            }),
        }
    }
}
