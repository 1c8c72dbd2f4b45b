use crate::same::Same;
use cf_types::{ListCmd, ListReply};

impl Same for ListCmd {
    fn is_same(&self, other: &ListCmd) -> bool {
        match (self, other) {
            (
                ListCmd::Write {
                    header,
                    head,
                    name,
                    key,
                    body,
                    adj,
                    cond,
                },
                ListCmd::Write {
                    header: h,
                    head: e,
                    name: n,
                    key: k,
                    body: b,
                    adj: a,
                    cond: c,
                },
            ) => {
                *header == *h
                    && *head == *e
                    && name.is_same(n)
                    && key.is_same(k)
                    && body.is_same(b)
                    && adj.is_same(a)
                    && cond.is_same(c)
            }
            (
                ListCmd::Update {
                    at,
                    body,
                    adj,
                    version,
                    cond,
                },
                ListCmd::Update {
                    at: t,
                    body: b,
                    adj: a,
                    version: v,
                    cond: c,
                },
            ) => {
                at.is_same(t)
                    && body.is_same(b)
                    && adj.is_same(a)
                    && *version == *v
                    && cond.is_same(c)
            }
            (ListCmd::Read { at, cond }, ListCmd::Read { at: t, cond: c }) => {
                at.is_same(t) && cond.is_same(c)
            }
            (
                ListCmd::Move {
                    at,
                    header,
                    head,
                    key,
                    version,
                    cond,
                },
                ListCmd::Move {
                    at: t,
                    header: h,
                    head: e,
                    key: k,
                    version: v,
                    cond: c,
                },
            ) => {
                at.is_same(t)
                    && *header == *h
                    && *head == *e
                    && key.is_same(k)
                    && *version == *v
                    && cond.is_same(c)
            }
            (
                ListCmd::Delete { at, version, cond },
                ListCmd::Delete {
                    at: t,
                    version: v,
                    cond: c,
                },
            ) => at.is_same(t) && *version == *v && cond.is_same(c),
            (ListCmd::ReadList { header }, ListCmd::ReadList { header: h }) => *header == *h,
            (ListCmd::LockSet { lock }, ListCmd::LockSet { lock: l }) => *lock == *l,
            (ListCmd::LockReset { lock }, ListCmd::LockReset { lock: l }) => *lock == *l,
            (ListCmd::LockTest { lock }, ListCmd::LockTest { lock: l }) => *lock == *l,
            (ListCmd::LControls { header }, ListCmd::LControls { header: h }) => *header == *h,
            (ListCmd::SetLimit { header, n }, ListCmd::SetLimit { header: h, n: m }) => {
                *header == *h && *n == *m
            }
            (
                ListCmd::Monitor { header, index },
                ListCmd::Monitor {
                    header: h,
                    index: i,
                },
            ) => *header == *h && *index == *i,
            (ListCmd::Unmonitor { header }, ListCmd::Unmonitor { header: h }) => *header == *h,
            _ => false,
        }
    }
}

impl Same for ListReply {
    fn is_same(&self, other: &ListReply) -> bool {
        match (self, other) {
            (ListReply::Id { id }, ListReply::Id { id: i }) => id.is_same(i),
            (
                ListReply::Entry {
                    id,
                    header,
                    version,
                    name,
                    key,
                    body,
                    adj,
                },
                ListReply::Entry {
                    id: i,
                    header: h,
                    version: v,
                    name: n,
                    key: k,
                    body: b,
                    adj: a,
                },
            ) => {
                id.is_same(i)
                    && *header == *h
                    && *version == *v
                    && name.is_same(n)
                    && key.is_same(k)
                    && body.is_same(b)
                    && adj.is_same(a)
            }
            (ListReply::Ok, ListReply::Ok) => true,
            (ListReply::Ids(ids), ListReply::Ids(others)) => ids.is_same(others),
            (ListReply::Holder { holder }, ListReply::Holder { holder: h }) => holder.is_same(h),
            (ListReply::Controls { count, limit }, ListReply::Controls { count: c, limit: l }) =>
                *count == *c && *limit == *l,
            (ListReply::Empty, ListReply::Empty) => true,
            (ListReply::NotEmpty, ListReply::NotEmpty) => true,
            (ListReply::OkCount { n }, ListReply::OkCount { n: other }) => *n == *other,
            _ => false,
        }
    }
}
