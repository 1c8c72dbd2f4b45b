use crate::same::Same;
use cf_types::{Event, ShellCmd, ShellReply};

impl Same for ShellCmd {
    fn is_same(&self, other: &ShellCmd) -> bool {
        *self == *other
    }
}

impl Same for Event {
    fn is_same(&self, other: &Event) -> bool {
        *self == *other
    }
}

impl Same for ShellReply {
    fn is_same(&self, other: &ShellReply) -> bool {
        match (self, other) {
            (ShellReply::Ok, ShellReply::Ok) => true,
            (ShellReply::OkNew { cf }, ShellReply::OkNew { cf: c }) => cf.is_same(c),
            (ShellReply::Reconnected { cf }, ShellReply::Reconnected { cf: c }) => cf.is_same(c),
            (ShellReply::Event { event }, ShellReply::Event { event: e }) => event.is_same(e),
            (ShellReply::Responded { event }, ShellReply::Responded { event: e }) => {
                event.is_same(e)
            }
            (ShellReply::OkNumber { number }, ShellReply::OkNumber { number: n }) => {
                *number == *n
            }
            (ShellReply::OkAt { cf }, ShellReply::OkAt { cf: c }) => cf.is_same(c),
            (ShellReply::Copied { moved, left }, ShellReply::Copied { moved: m, left: l }) => {
                *moved == *m && *left == *l
            }
            (ShellReply::OkNone, ShellReply::OkNone) => true,
            (ShellReply::Simplex { cf }, ShellReply::Simplex { cf: c }) => cf.is_same(c),
            (ShellReply::Stopped { number }, ShellReply::Stopped { number: n }) => *number == *n,
            (ShellReply::FailedNow, ShellReply::FailedNow) => true,
            _ => false,
        }
    }
}
