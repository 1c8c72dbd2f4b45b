use cf_types::ConnId;

/// A connector's monitor of a header (from 0): the bit at this index of its vector (from 0) tells
/// whether the header has records.
#[derive(Clone, Copy, PartialEq, Eq)]
pub struct Monitor {
    pub conn: ConnId,
    pub index: u32,
    pub header: u32,
}

/// A monitor, and the bit that its connector was told: whether the header has records.
#[derive(Clone, Copy, PartialEq, Eq)]
pub struct Watched {
    pub monitor: Monitor,
    pub full: bool,
}
