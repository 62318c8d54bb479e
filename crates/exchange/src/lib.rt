//! An exchange and a meter, line by line: what a line asks of a meter, and what is written back.

#![tactic(auto)]

pub mod line;
pub mod reply;
pub mod statement;
