pub use queue_model::{delivered_anew, kept_in_order, queues_hold, takes_first};
