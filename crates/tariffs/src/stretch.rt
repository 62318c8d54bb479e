ghost use Rattle.std.specs.Prelude.{◌≡◌, ◌≤◌, true, is_some};
ghost use Rattle.std.specs.List.{AllByRecursion};
ghost use Rattle.tariffs.specs.Sequences.{Admitted, Priced, charged, sequence};
ghost use Rattle.tariffs.specs.Stretches.{Prices, round_of};

use crate::tariff::Tariff;
use units::unit::Bounded;

impl Tariff {
    /// What the tariff charges over `seconds` seconds from elapsed second `from` on; `None` where that does not fit.
    pub fn price_of_stretch<U: Bounded>(&self, unit: &U, from: u32, seconds: u32) -> Option<u64>
        ensures sum { Priced result (charged (U.Unit.meaning unit.now) self.now from seconds) }
        ensures fits { AllByRecursion (Admitted (U.Unit.meaning unit.now)) (sequence self.now) → seconds ≤ 86400 → is_some result ≡ true }
    {
        match self.round() {
            Some(round) => self.price_of_rounds(unit, round, from, seconds),
            None => self.price_of_one_pass(unit, from, seconds),
        }
    }

    // The price of a stretch where the sequence does not begin again.
    fn price_of_one_pass<U: Bounded>(&self, unit: &U, from: u32, seconds: u32) -> Option<u64>
        requires { round_of self.now ≡ 0 }
        ensures { Prices (U.Unit.meaning unit.now) self.now from seconds result }
    {
        self.price_of_pass(unit, from, seconds)
    }
}
