//! A judge of a structure's history, for whoever reads one that was printed: whether calls and
//! links make it, as the one-thread machine replays it, or else where its first bad block begins;
//! and, in the same pass, whether tests of vector bits show what stood.
#![tactic(auto)]

mod blocks;
mod judge;
mod judged;
mod queues;

pub use judge::judge_history;
pub use judged::Judged;
