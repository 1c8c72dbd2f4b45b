use cf_types::Stage;

/// Whether a stage of a rebuild passed.
#[derive(Clone, Copy, PartialEq, Eq)]
pub enum Passed {
    /// The stage goes on.
    No,
    /// The next stage begins.
    Into(Stage),
    /// The rebuild has ended.
    Ended,
}
