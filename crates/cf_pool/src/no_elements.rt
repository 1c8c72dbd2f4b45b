/// Elements are wanting: `need` of them, of which `free` are free.
#[derive(Debug, Clone, Copy, PartialEq, Eq)]
pub struct NoElements {
    pub need: u32,
    pub free: u32,
}
