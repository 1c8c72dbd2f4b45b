use crate::listings::Listing;
use crate::names::Name16;
use crate::numbers::CfId;

/// A capacity: how many entries and how many elements of 256 bytes. For a lock structure the
/// numbers are those of table entries and of records.
#[derive(Clone, Copy, Debug, PartialEq, Eq)]
pub struct Caps {
    pub entries: u32,
    pub elements: u32,
}

/// A facility that may hold an instance of a structure, and the units set aside there for it.
#[derive(Clone, Copy, Debug, PartialEq, Eq)]
pub struct Pref {
    pub cf: CfId,
    pub units: u32,
}

/// What the records of a list structure are known by.
#[derive(Clone, Copy, Debug, PartialEq, Eq)]
pub enum Refs {
    Names,
    Keys,
    Nothing,
}

/// The kind of a structure.
#[derive(Clone, Copy, PartialEq, Eq)]
pub enum Kind {
    Cache,
    List {
        headers: u32,
        locks: u32,
        refs: Refs,
    },
    Lock,
}

/// The form of a structure as a policy states it: its name, kind and capacity, how many connections
/// it admits (1 to 32), how many bits each connector's vector has (0 for a lock structure), whether
/// it stays when nobody is connected, and where its instances may stand.
#[derive(Drop)]
pub struct StrForm {
    pub name: Name16,
    pub kind: Kind,
    pub caps: Caps,
    pub conns: u8,
    pub vector: u32,
    pub keep: bool,
    pub prefs: Listing<Pref>,
}
