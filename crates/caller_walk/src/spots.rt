/// Where a caller stands at a structure before its next call there.
#[derive(Clone, Copy)]
pub(crate) struct Spot {
    /// Whether it is active, by the replies to its calls so far.
    pub linked: bool,
    /// How many entries of the history lie before those that it hasn't seen.
    pub next: usize,
}
