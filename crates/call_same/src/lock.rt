use crate::same::Same;
use cf_types::{LockCmd, LockReply};

impl Same for LockCmd {
    fn is_same(&self, other: &LockCmd) -> bool {
        match (self, other) {
            (
                LockCmd::Obtain { r, excl, rec },
                LockCmd::Obtain {
                    r: on,
                    excl: e,
                    rec: d,
                },
            ) => r.is_same(on) && *excl == *e && rec.is_same(d),
            (
                LockCmd::Alter { r, excl, rec },
                LockCmd::Alter {
                    r: on,
                    excl: e,
                    rec: d,
                },
            ) => r.is_same(on) && *excl == *e && rec.is_same(d),
            (LockCmd::Release { r }, LockCmd::Release { r: on }) => r.is_same(on),
            (
                LockCmd::Decide { r, conn, how },
                LockCmd::Decide {
                    r: on,
                    conn: c,
                    how: h,
                },
            ) => r.is_same(on) && conn.is_same(c) && *how == *h,
            (LockCmd::RtRead { conn }, LockCmd::RtRead { conn: c }) => conn.is_same(c),
            (LockCmd::RtDelete { conn, r }, LockCmd::RtDelete { conn: c, r: on }) => {
                conn.is_same(c) && r.is_same(on)
            }
            _ => false,
        }
    }
}

impl Same for LockReply {
    fn is_same(&self, other: &LockReply) -> bool {
        match (self, other) {
            (LockReply::Granted, LockReply::Granted) => true,
            (LockReply::Pending { place }, LockReply::Pending { place: p }) => *place == *p,
            (LockReply::Ok, LockReply::Ok) => true,
            (LockReply::Records(rows), LockReply::Records(others)) => rows.is_same(others),
            _ => false,
        }
    }
}
