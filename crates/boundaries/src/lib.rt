//! Tests of the reader and the writer at the limits of what an indication may say, and just past them.

#![tactic(auto)]

#[cfg(test)]
mod bases;
#[cfg(test)]
mod reading;
#[cfg(test)]
mod writing;
