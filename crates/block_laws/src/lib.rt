//! A history read block by block, for whoever judges one: what an entry more needs, where a legal
//! history may be cut, which marks a call may have and that they are the machine's next steps, and
//! which tests each block decides. Definitions and laws, no code.
#![tactic(auto)]

mod blocks;
mod steps;

pub use blocks::{
    block_decides, never_tells, starts_tell, tells_at_the_end, tells_whatever_comes, whole_blocks,
};
pub use steps::{block_judged, marks_are_no_block, marks_stand};
