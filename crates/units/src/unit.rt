ghost use Rattle.units.specs.Meanings.{Meaning, Sound, admitted, counted};
ghost use Rattle.std.specs.Prelude.{◌≡◌};

use indication::entry::{Charge, Usage};
use indication::header::Mark;

/// A charge unit: what the charges of indications with its mark are worth. It answers by its meaning, and asking changes
/// nothing. Each question takes what it is about: a charge with its use, or with some seconds.
pub trait Unit {
    ghost meaning: { Self → Meaning };

    /// Whether a mark is one of this unit's.
    fn owns(&self, mark: Mark) -> bool
        ensures { result ≡ (meaning self.now).owns mark };

    /// Whether a charge may be written for a use.
    fn fits(&self, charge: Charge, usage: Usage) -> bool
        ensures { result ≡ (meaning self.now).fits charge usage };

    /// What a charge costs each time that it is taken.
    fn price(&self, charge: Charge) -> u64
        ensures { result ≡ (meaning self.now).price charge };

    /// How many of the `count` seconds from offset `from` on, counted from the start of its subtariff, a charge is taken at.
    fn ticks(&self, charge: Charge, from: u32, count: u32) -> u32
        ensures { result ≡ counted ((meaning self.now).ticks charge) from count };

    /// How many times a one-time subtariff of that many seconds takes its charge at its start.
    fn lump(&self, charge: Charge, duration: u16) -> u16
        ensures { result ≡ (meaning self.now).lump charge duration };

    ghost sound: { (x : Self) → Sound (meaning x) };
}

/// A unit with a bound on its prices.
pub trait Bounded: Unit {
    /// Whether a charge may be written for a use and costs at most 10^9.
    fn admits(&self, charge: Charge, usage: Usage) -> bool
        ensures { result ≡ admitted (Self.meaning self.now) charge usage };
}
