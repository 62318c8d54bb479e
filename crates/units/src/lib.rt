//! Charge units: what a charge is worth.

#![tactic(auto)]

pub mod admission;
pub mod currency;
pub mod limit;
pub mod pulses;
pub mod unit;
