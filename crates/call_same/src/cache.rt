use crate::same::Same;
use cf_types::{CacheCmd, CacheReply};

impl Same for CacheCmd {
    fn is_same(&self, other: &CacheCmd) -> bool {
        match (self, other) {
            (
                CacheCmd::Read {
                    name,
                    index,
                    old,
                    stg,
                },
                CacheCmd::Read {
                    name: n,
                    index: i,
                    old: o,
                    stg: s,
                },
            ) => name.is_same(n) && *index == *i && old.is_same(o) && *stg == *s,
            (
                CacheCmd::Write {
                    name,
                    index,
                    body,
                    class,
                    adj,
                    old,
                    stg,
                    when_reg,
                },
                CacheCmd::Write {
                    name: n,
                    index: i,
                    body: b,
                    class: c,
                    adj: a,
                    old: o,
                    stg: s,
                    when_reg: w,
                },
            ) => {
                name.is_same(n)
                    && *index == *i
                    && body.is_same(b)
                    && *class == *c
                    && adj.is_same(a)
                    && old.is_same(o)
                    && *stg == *s
                    && *when_reg == *w
            }
            (CacheCmd::CrossInval { name }, CacheCmd::CrossInval { name: n }) => name.is_same(n),
            (CacheCmd::RegList, CacheCmd::RegList) => true,
            (CacheCmd::Castout { name }, CacheCmd::Castout { name: n }) => name.is_same(n),
            (CacheCmd::Unlock { name }, CacheCmd::Unlock { name: n }) => name.is_same(n),
            (CacheCmd::CoClass { class }, CacheCmd::CoClass { class: c }) => *class == *c,
            (CacheCmd::CoStats, CacheCmd::CoStats) => true,
            (CacheCmd::DirInfo { name }, CacheCmd::DirInfo { name: n }) => name.is_same(n),
            (CacheCmd::Delete { name }, CacheCmd::Delete { name: n }) => name.is_same(n),
            (CacheCmd::StgStats { stg }, CacheCmd::StgStats { stg: s }) => *stg == *s,
            _ => false,
        }
    }
}

impl Same for CacheReply {
    fn is_same(&self, other: &CacheReply) -> bool {
        match (self, other) {
            (
                CacheReply::Data { body, adj, changed },
                CacheReply::Data {
                    body: b,
                    adj: a,
                    changed: c,
                },
            ) => body.is_same(b) && adj.is_same(a) && *changed == *c,
            (CacheReply::NoData, CacheReply::NoData) => true,
            (CacheReply::Ok, CacheReply::Ok) => true,
            (CacheReply::OkCount { n }, CacheReply::OkCount { n: other }) => *n == *other,
            (CacheReply::Regs(regs), CacheReply::Regs(others)) => regs.is_same(others),
            (CacheReply::CastData { body, adj }, CacheReply::CastData { body: b, adj: a }) => {
                body.is_same(b) && adj.is_same(a)
            }
            (CacheReply::Unlocked { changed }, CacheReply::Unlocked { changed: c }) => {
                *changed == *c
            }
            (CacheReply::Names(names), CacheReply::Names(others)) => names.is_same(others),
            (CacheReply::Stats(counts), CacheReply::Stats(others)) => counts.is_same(others),
            (
                CacheReply::Dir {
                    class,
                    stg,
                    holder,
                    regs,
                },
                CacheReply::Dir {
                    class: c,
                    stg: s,
                    holder: h,
                    regs: r,
                },
            ) => *class == *c && *stg == *s && holder.is_same(h) && *regs == *r,
            (
                CacheReply::Stg { rows, changed },
                CacheReply::Stg {
                    rows: r,
                    changed: c,
                },
            ) => *rows == *r && *changed == *c,
            _ => false,
        }
    }
}
