use thiserror::Error;

/// A write failed before the whole text was written.
#[derive(Clone, Copy, Debug, PartialEq, Eq, Error)]
#[error("a write failed after {written} bytes")]
pub struct WriteFault {
    /// How many bytes of the text the sink took before.
    pub written: usize,
}
