//! What a run shows: the histories of structures of whatever kind, callers' calls in them, and tests
//! that tell what stood. There is no code: contracts cite `specs/`, and laws stand in `proofs/`.
#![tactic(auto)]

pub use alter_model as alterations;
pub use cache_model as caches;
pub use list_model as lists;
pub use lock_model as locks;
pub use plex_script as scripts;
pub use queue_model as queues;
