//! Which texts are reports of a script. There is no code: contracts cite `specs/`.
#![tactic(auto)]
