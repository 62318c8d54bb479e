//! Lines of text from an untrusted input, in bounded memory: one line at a time, and the bytes and
//! numbers that its text writes.

#![tactic(auto)]

pub mod decimal;
pub mod hexadecimal;
pub mod line;
