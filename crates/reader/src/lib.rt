//! Reads an indication out of the bytes that the caller lends.

#![tactic(auto)]

mod bytes;
mod codes;
mod durations;
mod header;
mod length;
mod reading;
mod uses;
mod values;

pub use reading::Reader;
