//! Amounts in the words of their unit.

use commands::opening::UnitName;
use std::fmt;

/// An amount of a unit: units of 0.0000001 EUR, or pulses.
#[derive(Clone, Copy)]
pub struct Amount {
    pub value: u64,
    pub unit: UnitName,
}

impl fmt::Display for Amount {
    fn fmt<W: fmt::Write>(&self, f: &mut fmt::Formatter<W>) -> fmt::Result {
        let value = self.value;
        match self.unit {
            UnitName::Currency => {
                let euros = value / 10_000_000;
                let fraction = value % 10_000_000;
                write!(f, "{euros}.{fraction:07} EUR")
            }
            UnitName::Pulses if value == 1 => write!(f, "1 pulse"),
            UnitName::Pulses => write!(f, "{value} pulses"),
        }
    }
}
