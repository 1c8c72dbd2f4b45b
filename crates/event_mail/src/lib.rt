//! The events of a structure's connectors: letters that wait, and taken events that owe a response.
#![tactic(auto)]

mod letterbox;
mod mail;

pub use mail::Mail;
