//! Rows of words: how a value is printed in words, and how words are read, by one definition. The
//! rows stand in `specs/`, and the laws that printing and reading undo each other in `proofs/`;
//! there is no code.
#![tactic(auto)]
