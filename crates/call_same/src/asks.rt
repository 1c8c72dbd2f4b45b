use crate::same::Same;
use engine_api::{Ask, Reply};

impl<C: Same> Same for Ask<C> {
    fn is_same(&self, other: &Ask<C>) -> bool {
        match (self, other) {
            (Ask::Shell(one), Ask::Shell(other)) => one.is_same(other),
            (Ask::Content(one), Ask::Content(other)) => one.is_same(other),
            _ => false,
        }
    }
}

impl<R: Same> Same for Reply<R> {
    fn is_same(&self, other: &Reply<R>) -> bool {
        match (self, other) {
            (Reply::Shell(one), Reply::Shell(other)) => one.is_same(other),
            (Reply::Content(one), Reply::Content(other)) => one.is_same(other),
            (Reply::Refused(one), Reply::Refused(other)) => one.is_same(other),
            _ => false,
        }
    }
}
