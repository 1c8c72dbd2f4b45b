/// A test of one vector bit, as a caller shows it.
#[derive(Clone, Copy, Debug)]
pub struct Wait {
    /// The number that it shows.
    pub at: u32,
    /// The greatest number that its caller had seen complete before.
    pub sure: u32,
    pub index: u32,
    /// What it shows of the bit.
    pub bit: bool,
    /// Whether the history, as far as it has come, tells that.
    pub told: bool,
}
