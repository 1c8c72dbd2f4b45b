//! Copies of the answers of a list structure.
use crate::copies::replies::{TryClone, copy_listing};
use cf_types::{ListReply, NoMemory, copy_data};
use std::alloc::Global;

impl TryClone for ListReply {
    fn try_clone(&self, alloc: Global) -> Result<Self, NoMemory> {
        match self {
            ListReply::Id { id } => Ok(ListReply::Id { id: *id }),
            ListReply::Entry {
                id,
                header,
                version,
                name,
                key,
                body,
                adj,
            } => Ok(ListReply::Entry {
                id: *id,
                header: *header,
                version: *version,
                name: *name,
                key: *key,
                body: copy_data(alloc, body)?,
                adj: *adj,
            }),
            ListReply::Ok => Ok(ListReply::Ok),
            ListReply::Ids(ids) => Ok(ListReply::Ids(copy_listing(alloc, ids)?)),
            ListReply::Holder { holder } => Ok(ListReply::Holder { holder: *holder }),
            ListReply::Controls { count, limit } => Ok(ListReply::Controls {
                count: *count,
                limit: *limit,
            }),
            ListReply::Empty => Ok(ListReply::Empty),
            ListReply::NotEmpty => Ok(ListReply::NotEmpty),
            ListReply::OkCount { n } => Ok(ListReply::OkCount { n: *n }),
        }
    }
}
