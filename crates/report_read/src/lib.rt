//! Reads the report of a script, line by line, or tells the first line up to which a text is the
//! front of no report. Contracts cite `specs/`, and proofs cite `proofs/`.
#![tactic(auto)]

mod cursor;
mod entries;
mod histories;
mod laws;
mod policy;
mod report;
mod transcripts;

pub use cursor::TextBad;
pub use laws::one_report;
pub use report::read_report;
