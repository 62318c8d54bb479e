//! What an indication says beside its entries.

ghost use Rattle.indication.specs.Codes.{Decodes, kind_code, change_code, control_code};

use crate::code::UnknownCode;

#[derive(Clone, Copy, PartialEq, Eq, Debug)]
pub enum Kind {
    /// new tariffs
    Tariff = 1,
    /// one amount to be added
    AddOn = 2,
}

// For each enum of codes by hand: the gate refuses an impl that a macro of the repository writes.
impl TryFrom<u8> for Kind {
    type Error = UnknownCode;

    ghost try_from_gives = { Decodes kind_code };

    fn try_from(code: u8) -> Result<Self, UnknownCode> {
        match code {
            1 => Ok(Kind::Tariff),
            2 => Ok(Kind::AddOn),
            _ => Err(UnknownCode(code)),
        }
    }
}

/// How a new current tariff takes effect.
#[derive(Clone, Copy, PartialEq, Eq, Debug)]
pub enum Change {
    WithoutRestart = 0,
    WithRestart = 1,
}

impl TryFrom<u8> for Change {
    type Error = UnknownCode;

    ghost try_from_gives = { Decodes change_code };

    fn try_from(code: u8) -> Result<Self, UnknownCode> {
        match code {
            0 => Ok(Change::WithoutRestart),
            1 => Ok(Change::WithRestart),
            _ => Err(UnknownCode(code)),
        }
    }
}

/// What follows the last subtariff of a sequence: the first again, or nothing.
#[derive(Clone, Copy, PartialEq, Eq, Debug)]
pub enum TariffControl {
    Cyclic = 0,
    NonCyclic = 1,
}

impl TryFrom<u8> for TariffControl {
    type Error = UnknownCode;

    ghost try_from_gives = { Decodes control_code };

    fn try_from(code: u8) -> Result<Self, UnknownCode> {
        match code {
            0 => Ok(TariffControl::Cyclic),
            1 => Ok(TariffControl::NonCyclic),
            _ => Err(UnknownCode(code)),
        }
    }
}

/// The charge unit that an indication is written for.
// Any four bytes: only a charge unit can tell whether a mark is its own.
#[derive(Clone, Copy, PartialEq, Eq, Debug)]
pub struct Mark {
    pub kind: u8,
    pub letters: [u8; 3],
}

#[derive(Clone, Copy, PartialEq, Eq, Debug)]
pub struct Header {
    pub kind: Kind,
    pub change: Change,
    pub current_control: TariffControl,
    pub next_control: TariffControl,
    /// the quarter hour of the day, 1 to 96, at which the next tariff takes over; 0 where there is none
    // any number, since the writer is handed what an operator wrote, and refuses a quarter out of range
    pub quarter: u8,
    pub mark: Mark,
    pub network: u64,
    pub reference: u32,
}
