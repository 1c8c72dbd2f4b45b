//! The interests of a lock structure with their record data: who owns which resource, and what
//! connectors recorded of what they own.
#![tactic(auto)]

mod interests;

pub use interests::{Interests, held_by, records_of};
pub use lock_record as recorded;
