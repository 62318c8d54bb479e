use crate::operator::Operator;

/// The seconds of a day, and the most that a call lasts.
pub(crate) const DAY: u32 = 86400;

/// What a call is doing.
#[derive(Clone, Copy, PartialEq, Eq, Debug)]
pub enum Phase {
    SetUp,
    Charging,
    Closed,
}

/// The record of one call.
#[derive(Clone, Copy, PartialEq, Eq, Debug)]
pub struct Call {
    /// the second of the day at which it was opened
    pub opening: u32,
    /// the seconds since then
    pub clock: u32,
    pub phase: Phase,
    /// how many indications were accepted
    pub accepted: u16,
    /// the operators, in order of their first accepted indication
    // An array of seats and no list with a length: the memory is fixed, and the definitions say which seats are free.
    pub operators: [Option<Operator>; 4],
}
