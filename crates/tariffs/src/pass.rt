ghost use Rattle.std.specs.Prelude.{◌≡◌, ◌+◌, ◌-◌, min, if◌then◌else◌};
ghost use Rattle.tariffs.specs.Sequences.{Priced, endless, sequence, sum, taken};
ghost use Rattle.tariffs.specs.Stretches.{taken_over, times_taken};

use crate::tariff::{Charging, Subtariff, Tariff};
use units::unit::Bounded;

// From where and how many seconds are two numbers, as callers give them: any two will do, so a type would say no more.
impl Subtariff {
    // How many of the `seconds` seconds from offset `from` on are the subtariff's own.
    fn share(self, from: u32, seconds: u32) -> u32
        ensures { result ≡ (if endless self then seconds else min seconds (self.duration - from)) }
    {
        if self.duration == 0 {
            return seconds;
        }
        seconds.min(u32::from(self.duration).saturating_sub(from))
    }

    // How many times it takes its charge in `seconds` of its seconds from offset `from` on.
    fn times_taken<U: Bounded>(self, unit: &U, from: u32, seconds: u32) -> u64
        ensures { result ≡ times_taken self.charging (U.Unit.meaning unit.now) self from seconds }
    {
        match self.charging {
            Charging::Periodic => u64::from(unit.ticks(self.charge, from, seconds)),
            Charging::OneTime if from == 0 => u64::from(unit.lump(self.charge, self.duration)),
            // 0 times
            Charging::OneTime => 0,
        }
    }

    // What it takes over `seconds` of its seconds from offset `from` on; the unit is not asked for no seconds.
    fn price<U: Bounded>(self, unit: &U, from: u32, seconds: u32) -> Option<u64>
        ensures { Priced result (sum (λ k. taken (U.Unit.meaning unit.now) self (from + k)) seconds) }
    {
        if seconds == 0 {
            return Some(0);
        }
        let times = self.times_taken(unit, from, seconds);
        unit.price(self.charge).checked_mul(times)
    }
}

impl Tariff {
    // What the sequence takes over `seconds` seconds from its second `from` on, with no second round.
    pub(crate) fn price_of_pass<U: Bounded>(&self, unit: &U, from: u32, seconds: u32) -> Option<u64>
        ensures { Priced result (taken_over (U.Unit.meaning unit.now) (sequence self.now) from seconds) }
    {
        // a `for`, and no fold: three numbers go from one subtariff to the next
        let mut from = from;
        let mut left = seconds;
        let mut total: u64 = 0;
        for subtariff in self.subtariffs.iter().copied().flatten() {
            let seconds = subtariff.share(from, left);
            let price = subtariff.price(unit, from, seconds)?;
            total = total.checked_add(price)?;
            left -= seconds;
            from = from.saturating_sub(u32::from(subtariff.duration));
        }
        Some(total)
    }
}
