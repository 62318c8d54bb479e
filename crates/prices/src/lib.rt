//! Tests of what tariffs cost: worked examples, and a charge unit that no program has.

#![tactic(auto)]

pub mod primes;
#[cfg(test)]
mod worked;
