//! The meter of one call: three states that a call goes through, and one function that performs any request.

#![tactic(auto)]

pub mod charging;
pub mod closed;
pub mod meter;
pub mod metered;
pub mod request;
pub mod run;
pub mod set_up;
