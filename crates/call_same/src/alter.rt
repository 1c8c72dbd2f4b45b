use crate::same::Same;
use cf_types::{AlterCmd, AlterReply};

impl<C: Same> Same for AlterCmd<C> {
    fn is_same(&self, other: &AlterCmd<C>) -> bool {
        match (self, other) {
            (AlterCmd::Inner(one), AlterCmd::Inner(other)) => one.is_same(other),
            (AlterCmd::Start { caps }, AlterCmd::Start { caps: c }) => *caps == *c,
            (AlterCmd::Step { n }, AlterCmd::Step { n: other }) => *n == *other,
            (AlterCmd::Stop, AlterCmd::Stop) => true,
            _ => false,
        }
    }
}

impl<R: Same> Same for AlterReply<R> {
    fn is_same(&self, other: &AlterReply<R>) -> bool {
        match (self, other) {
            (AlterReply::Inner(one), AlterReply::Inner(other)) => one.is_same(other),
            (AlterReply::Ok, AlterReply::Ok) => true,
            (AlterReply::Altered { caps, done }, AlterReply::Altered { caps: c, done: d }) => {
                *caps == *c && *done == *d
            }
            _ => false,
        }
    }
}
