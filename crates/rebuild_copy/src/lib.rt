//! Copying the content of a structure into a new instance, item by item, as a rebuild does.
#![tactic(auto)]

mod copying;
mod filling;
mod moved;

pub use copying::Copying;
pub use filling::Filling;
pub use moved::Moved;
