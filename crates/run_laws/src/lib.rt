//! Laws of what a run shows. Of each kind's histories: changed pages that aren't cast out are kept, a
//! bit that stands tells a fresh copy, an alteration is refused as too small exactly where it is, a
//! record's version counts its updates, an event of a queue is delivered once, any two owners of a
//! resource are compatible. Of a whole run: a report has no other reading, a vector test that tells
//! VALID tells a fresh copy, and no structure gets more calls than the script's lines on it and the
//! closings make.
#![tactic(auto)]

pub mod alters;
mod bounded;
pub mod caches;
mod fresh;
pub mod lists;
pub mod locks;
pub mod queues;
mod report;

pub use bounded::within_script;
pub use fresh::valid_is_fresh;
pub use plex_report as reports;
pub use report::only_reading;
