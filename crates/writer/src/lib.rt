//! Writes an indication into a buffer that the caller lends.

#![tactic(auto)]

mod encoding;
mod fields;
mod writing;

pub use writing::write;
