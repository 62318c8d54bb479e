//! The entries of a tariff or an add-on: a charge, and the term on which it is taken.

ghost use Rattle.indication.specs.Codes.{Decodes, usage_code};

use crate::code::UnknownCode;

/// What a charge is taken for.
#[derive(Clone, Copy, PartialEq, Eq, Debug)]
pub enum Usage {
    /// a subtariff whose charge recurs while it lasts
    Periodic = 0,
    /// a subtariff whose charge is taken whole at its first second
    OneTime = 1,
    /// due when charging begins
    SetUp = 2,
    /// due when the call is released before charging began
    Attempt = 3,
    /// one amount to be added to the account
    AddOn = 4,
}

impl TryFrom<u8> for Usage {
    type Error = UnknownCode;

    ghost try_from_gives = { Decodes usage_code };

    fn try_from(code: u8) -> Result<Self, UnknownCode> {
        match code {
            0 => Ok(Usage::Periodic),
            1 => Ok(Usage::OneTime),
            2 => Ok(Usage::SetUp),
            3 => Ok(Usage::Attempt),
            4 => Ok(Usage::AddOn),
            _ => Err(UnknownCode(code)),
        }
    }
}

/// An amount as the operator writes it; only a charge unit says what it is worth.
#[derive(Clone, Copy, PartialEq, Eq, Debug)]
pub struct Charge {
    pub size: u32,
    pub step: i16,
}

/// What a charge is taken for, and for how many seconds: 0 is without end, or no length at all.
#[derive(Clone, Copy, PartialEq, Eq, Debug)]
pub struct Term {
    pub usage: Usage,
    // any number, since the writer is handed what an operator wrote, and refuses a duration that the use may not have
    pub duration: u16,
}

#[derive(Clone, Copy, PartialEq, Eq, Debug)]
pub struct Entry {
    pub charge: Charge,
    pub term: Term,
}
