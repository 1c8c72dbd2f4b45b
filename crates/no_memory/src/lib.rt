//! Want of memory, as an allocator tells it: one error for every crate that takes memory.
//!
//! A [`NoMemory`] is made of an allocator's own error, by `?`, or by
//! [`NoMemory::beyond_counts`]; no other crate can write one out.
#![tactic(auto)]

mod wants;

pub use wants::NoMemory;
