//! The plain record of one call, and the rules by which it changes.

#![tactic(auto)]

pub mod call;
pub mod operator;
mod owing;
mod passing;
mod phases;
mod quarters;
mod receiving;
mod seat;
mod seats;
pub mod statement;
mod stretch;
mod switching;
