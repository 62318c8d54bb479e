//! What a list of requests adds up to, and what holds of it.

#![tactic(auto)]

pub mod answer;
mod laws;
