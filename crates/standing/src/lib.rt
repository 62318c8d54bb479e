//! The record of a call, against what its requests add up to.

#![tactic(auto)]

mod laws;
