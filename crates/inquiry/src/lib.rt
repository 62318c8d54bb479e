//! What the record of a call tells: amounts owed, now or later, and the statement of a closed call.

#![tactic(auto)]

pub mod ahead;
pub mod amount;
pub mod statement;
