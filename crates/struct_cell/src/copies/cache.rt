//! Copies of the answers of a cache structure.
use crate::copies::replies::{TryClone, copy_listing};
use cf_types::{CacheReply, NoMemory, copy_body};
use std::alloc::Global;

impl TryClone for CacheReply {
    fn try_clone(&self, alloc: Global) -> Result<Self, NoMemory> {
        match self {
            CacheReply::Data { body, adj, changed } => Ok(CacheReply::Data {
                body: copy_body(alloc, body)?,
                adj: *adj,
                changed: *changed,
            }),
            CacheReply::NoData => Ok(CacheReply::NoData),
            CacheReply::Ok => Ok(CacheReply::Ok),
            CacheReply::OkCount { n } => Ok(CacheReply::OkCount { n: *n }),
            CacheReply::Regs(regs) => Ok(CacheReply::Regs(copy_listing(alloc, regs)?)),
            CacheReply::CastData { body, adj } => Ok(CacheReply::CastData {
                body: copy_body(alloc, body)?,
                adj: *adj,
            }),
            CacheReply::Unlocked { changed } => Ok(CacheReply::Unlocked { changed: *changed }),
            CacheReply::Names(names) => Ok(CacheReply::Names(copy_listing(alloc, names)?)),
            CacheReply::Stats(stats) => Ok(CacheReply::Stats(copy_listing(alloc, stats)?)),
            CacheReply::Dir {
                class,
                stg,
                holder,
                regs,
            } => Ok(CacheReply::Dir {
                class: *class,
                stg: *stg,
                holder: *holder,
                regs: *regs,
            }),
            CacheReply::Stg { rows, changed } => Ok(CacheReply::Stg {
                rows: *rows,
                changed: *changed,
            }),
        }
    }
}
