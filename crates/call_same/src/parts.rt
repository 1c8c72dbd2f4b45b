use crate::same::Same;
use cf_types::{Adjunct, At, Body, CfId, Cond, ConnId, EntryId, Key16, Name16, Resource};

impl Same for Name16 {
    fn is_same(&self, other: &Name16) -> bool {
        self.0 == other.0
    }
}

impl Same for Key16 {
    fn is_same(&self, other: &Key16) -> bool {
        self.0 == other.0
    }
}

impl Same for Body {
    fn is_same(&self, other: &Body) -> bool {
        self.bytes() == other.bytes()
    }
}

impl Same for Adjunct {
    fn is_same(&self, other: &Adjunct) -> bool {
        self.bytes() == other.bytes()
    }
}

impl Same for ConnId {
    fn is_same(&self, other: &ConnId) -> bool {
        self.0 == other.0
    }
}

impl Same for CfId {
    fn is_same(&self, other: &CfId) -> bool {
        self.0 == other.0
    }
}

impl Same for EntryId {
    fn is_same(&self, other: &EntryId) -> bool {
        self.0 == other.0
    }
}

impl Same for Resource {
    fn is_same(&self, other: &Resource) -> bool {
        self.name.is_same(&other.name) && self.hash == other.hash
    }
}

impl Same for At {
    fn is_same(&self, other: &At) -> bool {
        match (self, other) {
            (At::Id(id), At::Id(other)) => id.is_same(other),
            (At::Name(name), At::Name(other)) => name.is_same(other),
            (At::Head(header), At::Head(other)) => *header == *other,
            (At::Tail(header), At::Tail(other)) => *header == *other,
            (At::Key(header, key), At::Key(other, other_key)) => {
                *header == *other && key.is_same(other_key)
            }
            _ => false,
        }
    }
}

impl Same for Cond {
    fn is_same(&self, other: &Cond) -> bool {
        match (self, other) {
            (Cond::NotHeld(lock), Cond::NotHeld(other)) => *lock == *other,
            (Cond::HeldBy(lock), Cond::HeldBy(other)) => *lock == *other,
            _ => false,
        }
    }
}

// A class and its count.
impl Same for (u32, u32) {
    fn is_same(&self, other: &(u32, u32)) -> bool {
        self.0 == other.0 && self.1 == other.1
    }
}

// An index and the name that is registered there.
impl Same for (u32, Name16) {
    fn is_same(&self, other: &(u32, Name16)) -> bool {
        self.0 == other.0 && self.1.is_same(&other.1)
    }
}

// Record data, with their resource and state.
impl Same for (Resource, bool, Adjunct) {
    fn is_same(&self, other: &(Resource, bool, Adjunct)) -> bool {
        self.0.is_same(&other.0) && self.1 == other.1 && self.2.is_same(&other.2)
    }
}
