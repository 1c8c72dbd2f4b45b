//! Whether two calls are the same: what they ask, and what they are answered.
#![tactic(auto)]

mod alter;
mod asks;
mod cache;
mod common;
mod list;
mod lists;
mod lock;
mod parts;
mod queue;
mod refusals;
mod same;

pub use same::Same;
