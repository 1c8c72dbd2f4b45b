//! What every structure of a coupling facility shares: engines, which keep a content and do the
//! commands on it, and the numbered histories of their calls.
#![tactic(auto)]

mod asks;
mod deeds;
mod engine;
mod histories;
mod laws;
mod set_caps;
mod shapes;
mod told;

pub use asks::{Ask, Reply, What};
pub use cf_types as types;
pub use deeds::{Deeds, Room};
pub use engine::Engine;
pub use histories::{Entry, History};
pub use laws::{legal_by_points, refused_changes_nothing};
pub use rebuild_core as rebuilds;
pub use set_caps::SetCaps;
pub use shapes::Shape;
pub use told::Told;
