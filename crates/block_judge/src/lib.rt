//! A block of a history held against the one-thread machine: the marks that its call may have, each
//! as a loss, and the call behind them. Links are never down here, so that what is printed is taken
//! at its word and a machine does what it says.
#![tactic(auto)]

mod block;
mod judging;
mod marks;

pub use block::block_fits;
