//! A structure's instances, one or two with the same content (system-managed duplexing), and the
//! links over which they are asked.
#![tactic(auto)]

mod ended;
mod instances;
mod lost;
mod pair;
mod placed;
mod reached;
mod together;

pub use cf_link as links;
pub use cf_link::sources as sources;
pub use ended::Ended;
pub use lost::Lost;
pub use pair::Pair;
pub use placed::Placed;
pub use together::fresh_mail;
