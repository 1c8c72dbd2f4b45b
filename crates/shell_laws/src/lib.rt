//! Laws of the machine of a structure of whatever kind: what a history says of its rebuild, its
//! facilities, its failure and its capacity, who the members are, what is in a new instance, what the
//! content fits, and what so holds after every history. Definitions and laws, no code.
#![tactic(auto)]

mod facts;
mod laws;

pub use facts::{
    copies_what_is_told, fails_as_told, finds_candidates_as_told, has_the_capacity_told,
    quiesces_as_told, severs_as_told, varies_as_told,
};
pub use laws::{
    content_waits, copies_a_front, fills_in_copy_alone, holds_at_its_capacity, keeps_what_is_told,
    loss_of_the_new_keeps_the_content, members_are_active, stop_keeps_the_content,
};
