//! The lines of a meter's input: the one that opens it, and the commands that follow.

#![tactic(auto)]

mod argument;
pub mod command;
pub mod opening;
