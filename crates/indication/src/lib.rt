//! The binary form of an operator's indication: its typed values, the rules of the format, and the refusals.

#![tactic(auto)]

pub mod code;
pub mod entries;
pub mod entry;
pub mod fault;
pub mod header;
mod table;
pub mod value;
mod words;
