use caller_slots::shown::scripts::types::Listing;
use caller_slots::shown::scripts::{AnyHistory, Transcript};

/// What a report prints behind its policy.
pub struct Printed {
    /// The history of each structure, in the order in which the script declares them.
    pub histories: Listing<AnyHistory>,
    /// The transcript of each caller, the operator's first.
    pub transcripts: Listing<Transcript>,
}

impl Drop for Printed {
    fn drop(self) {
        let Printed {
            histories: _,
            transcripts: _,
        } = self;
    }
}
