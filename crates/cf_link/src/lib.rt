//! The links over which a structure reaches its instances. A link that answers [`Down`] tells that
//! the instance in its facility is lost.
#![tactic(auto)]

mod link;
mod links;
mod list_link;
mod steady;

pub use cf_io as sources;
pub use link::{Down, Link};
pub use links::Links;
pub use list_link::ListLink;
pub use steady::Steady;
