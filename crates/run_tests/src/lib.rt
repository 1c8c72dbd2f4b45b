//! Tests of the program's one call: how runs end, and runs on threads, with gates at which callers wait
//! for one another.
#![tactic(auto)]

#[cfg(test)]
mod tests;
