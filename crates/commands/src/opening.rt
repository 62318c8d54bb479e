//! The line that opens a meter.

ghost use Rattle.commands.specs.Openings.{Names, Opens};
ghost use Rattle.std.specs.Fmt.{decimal};
ghost use Rattle.std.specs.Prelude.{Some, ◌++◌, codes, MatchOption};

use crate::argument;
use std::error::Error;
use std::fmt;

/// What a meter counts in.
#[derive(Clone, Copy, PartialEq, Eq, Debug)]
pub enum UnitName {
    /// amounts of money
    Currency,
    /// whole pulses
    Pulses,
}

/// How a meter is opened.
#[derive(Clone, Copy, PartialEq, Eq, Debug)]
pub struct Opening {
    /// what it counts in
    pub unit: UnitName,
    /// the second at which it is opened
    pub second: u32,
}

/// A letter of no unit.
// apart from `UnknownCode` of `indication`: neither crate knows the other, and each has its text
#[derive(Clone, Copy, PartialEq, Eq, Debug)]
pub struct UnknownUnit(pub u8);

impl fmt::Display for UnknownUnit {
    ghost output = { λ unknown. Some (codes "byte " ++ decimal unknown.0 ++ codes " is the letter of no unit") };

    fn fmt<W: fmt::Write>(&self, f: &mut fmt::Formatter<W>) -> fmt::Result {
        write!(f, "byte {} is the letter of no unit", self.0)
    }
}

impl Error for UnknownUnit {}

impl TryFrom<u8> for UnitName {
    type Error = UnknownUnit;

    ghost try_from_gives = { Names };

    fn try_from(letter: u8) -> Result<UnitName, UnknownUnit> {
        match letter {
            b'C' => Ok(UnitName::Currency),
            b'P' => Ok(UnitName::Pulses),
            _ => Err(UnknownUnit(letter)),
        }
    }
}

/// The opening that the line writes: `C` or `P`, one space, and the second in decimal, below 2^32. `None` of any
/// other line.
pub fn parse_opening(line: &[u8]) -> Option<Opening>
    ensures { MatchOption result ((o : Opening) → Opens line.now o → ⊥) (λ o. Opens line.now o) }
{
    let (letter, rest) = line.split_first()?;
    let unit = UnitName::try_from(*letter).ok()?;
    let second = argument::number(rest)?;
    Some(Opening { unit, second })
}
