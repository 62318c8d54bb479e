//! Tariffs: what an operator charges in one call.

#![tactic(auto)]

mod making;
mod pass;
mod rounds;
mod stretch;
pub mod tariff;
