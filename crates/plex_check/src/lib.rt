//! The check of what a report prints: each structure's history is replayed with its engine, call by
//! call, and each caller's transcript is held against the script and what the histories tell.
#![tactic(auto)]

mod answers;
mod histories;
mod judging;
mod queues;
mod structures;

pub use answers::check;
pub use check_model as model;
pub use judging::judge_any;
