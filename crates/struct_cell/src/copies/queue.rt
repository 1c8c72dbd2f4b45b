//! Copies of the answers of a list structure with event queues.
use crate::copies::replies::TryClone;
use cf_types::{NoMemory, QueueReply};
use std::alloc::Global;

impl TryClone for QueueReply {
    fn try_clone(&self, alloc: Global) -> Result<Self, NoMemory> {
        match self {
            QueueReply::List(answer) => Ok(QueueReply::List(answer.try_clone(alloc)?)),
            QueueReply::Empty => Ok(QueueReply::Empty),
            QueueReply::NotEmpty => Ok(QueueReply::NotEmpty),
            QueueReply::Ok { n } => Ok(QueueReply::Ok { n: *n }),
            QueueReply::Sublist { header, key } => Ok(QueueReply::Sublist {
                header: *header,
                key: *key,
            }),
        }
    }
}
