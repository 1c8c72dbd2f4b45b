use crate::same::Same;
use cf_types::{QueueCmd, QueueReply};

impl Same for QueueCmd {
    fn is_same(&self, other: &QueueCmd) -> bool {
        match (self, other) {
            (QueueCmd::List(one), QueueCmd::List(other)) => one.is_same(other),
            (QueueCmd::MonSub { header, key }, QueueCmd::MonSub { header: h, key: k }) => {
                *header == *h && key.is_same(k)
            }
            (QueueCmd::UnmonSub { header, key }, QueueCmd::UnmonSub { header: h, key: k }) => {
                *header == *h && key.is_same(k)
            }
            (QueueCmd::Deq, QueueCmd::Deq) => true,
            _ => false,
        }
    }
}

impl Same for QueueReply {
    fn is_same(&self, other: &QueueReply) -> bool {
        match (self, other) {
            (QueueReply::List(one), QueueReply::List(other)) => one.is_same(other),
            (QueueReply::Empty, QueueReply::Empty) => true,
            (QueueReply::NotEmpty, QueueReply::NotEmpty) => true,
            (QueueReply::Ok { n }, QueueReply::Ok { n: other }) => *n == *other,
            (QueueReply::Sublist { header, key }, QueueReply::Sublist { header: h, key: k }) => {
                *header == *h && key.is_same(k)
            }
            _ => false,
        }
    }
}
