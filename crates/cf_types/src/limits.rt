//! The greatest numbers of a script, a policy and a structure.

/// Facilities, `CF1` to `CF4`.
pub const FACILITIES: u8 = 4;
/// Connectors of a script, and connections of a structure.
pub const CONNECTORS: u8 = 64;
/// Callers of a structure: the operator, and each connector.
pub const CALLERS: u8 = CONNECTORS + 1;
/// Numbers that a set of connectors has room for, from 0.
pub const SET_NUMBERS: u8 = 128;
/// Structures of a script.
pub const STRUCTURES: u8 = 16;
/// Bits of a connector's vector.
pub const VECTOR_BITS: u32 = 4096;
/// Entries, and elements or records, of a structure.
pub const CAPACITY: u32 = 4096;
/// Units of a facility, or set aside for a structure.
pub const UNITS: u32 = 1_000_000;
/// Headers of a list structure.
pub const HEADERS: u32 = 64;
/// Lock entries of a list structure.
pub const LIST_LOCKS: u32 = 64;
/// Castout classes, from 1.
pub const CASTOUT_CLASSES: u32 = 16;
/// Storage classes, from 1.
pub const STORAGE_CLASSES: u32 = 8;
/// Items that one COPY command asks for.
pub const COPY_ITEMS: u32 = 4096;
/// Entries, and elements, that one step of an alteration moves at most.
pub const ALTER_STEP: u32 = 4096;
/// Bytes of a name or a key.
pub const NAME_BYTES: usize = 16;
/// Bytes of an adjunct, or of a lock's record data.
pub const ADJUNCT_BYTES: usize = 64;
/// Bytes of data.
pub const BODY_BYTES: usize = 4096;
/// Bytes of an element, of which data take as many as they need.
pub const ELEMENT_BYTES: usize = 256;
/// Bytes of a line of a script.
pub const LINE_BYTES: usize = 8192;
/// Links of a plex: one for each structure and facility.
pub const LINKS: usize = 64;
/// How often a line's call may be asked again.
pub const RETRIES: u32 = 1000;
