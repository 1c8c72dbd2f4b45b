/// What a step of a copy moved.
#[derive(Clone, Copy, PartialEq, Eq)]
pub struct Moved {
    /// How many items it copied.
    pub moved: u32,
    /// How many of the old instance's items aren't copied yet.
    pub left: u32,
}
