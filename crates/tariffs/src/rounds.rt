ghost use Rattle.std.specs.Int.NonZero.{non_zero_u32_get};
ghost use Rattle.std.specs.Prelude.{◌≡◌, ◌+◌, ◌*◌, ℕ, MatchOption};
ghost use Rattle.tariffs.specs.Sequences.{Priced, sequence};
ghost use Rattle.tariffs.specs.Stretches.{Prices, Splits, round_of, taken_over, whole_length};

use crate::tariff::Tariff;
use indication::header::TariffControl;
use std::num::NonZeroU32;
use units::unit::Bounded;

impl Tariff {
    // How many seconds one round of the sequence takes; `None` where it has no end.
    fn round_length(&self) -> Option<u32>
        ensures { result ≡ whole_length (sequence self.now) }
    {
        // a `for`, and no fold: that four durations fit is known of the turns of a loop
        let mut length = 0;
        for subtariff in self.subtariffs.iter().copied().flatten() {
            if subtariff.duration == 0 {
                return None;
            }
            length += u32::from(subtariff.duration);
        }
        Some(length)
    }

    // How many seconds a round takes; `None` where the sequence does not begin again.
    pub(crate) fn round(&self) -> Option<NonZeroU32>
        ensures { MatchOption result (round_of self.now ≡ 0) (λ round. non_zero_u32_get round ≡ round_of self.now) }
    {
        match self.control {
            TariffControl::Cyclic => NonZeroU32::new(self.round_length()?),
            TariffControl::NonCyclic => None,
        }
    }

    // What `count` whole rounds take: the price of one, so many times.
    fn price_of_whole_rounds<U: Bounded>(&self, unit: &U, round: u32, count: u32) -> Option<u64>
        ensures { Priced result (count * taken_over (U.Unit.meaning unit.now) (sequence self.now) 0 round) }
    {
        if count == 0 {
            return Some(0);
        }
        u64::from(count).checked_mul(self.price_of_pass(unit, 0, round)?)
    }

    // The price of a stretch where the sequence begins again every `round` seconds: what is left of the round where it
    // starts, the whole rounds after that together, and a last unfinished round.
    pub(crate) fn price_of_rounds<U: Bounded>(
        &self,
        unit: &U,
        round: NonZeroU32,
        from: u32,
        seconds: u32,
    ) -> Option<u64>
        requires { non_zero_u32_get round ≡ round_of self.now }
        ensures { Prices (U.Unit.meaning unit.now) self.now from seconds result }
    {
        let stretch = InRounds::new(round, from, seconds);
        let first = self.price_of_pass(unit, stretch.at, stretch.first);
        let whole = self.price_of_whole_rounds(unit, round.get(), stretch.whole);
        let last = self.price_of_pass(unit, 0, stretch.last);
        plus(first, plus(whole, last))
    }
}

// The sum of two prices, where both of them and their sum fit.
fn plus(a: Option<u64>, b: Option<u64>) -> Option<u64>
    ensures { (m n : ℕ) → Priced a m → Priced b n → Priced result (m + n) }
{
    a?.checked_add(b?)
}

// A stretch of seconds in rounds.
#[derive(Clone, Copy)]
struct InRounds {
    // the second of its round at which the stretch starts, and how many seconds are left of that round
    at: u32,
    first: u32,
    // the whole rounds after that, and the seconds of a last unfinished one
    whole: u32,
    last: u32,
}

impl InRounds {
    fn new(round: NonZeroU32, from: u32, seconds: u32) -> InRounds
        ensures { Splits (non_zero_u32_get round) from seconds result }
    {
        let at = from % round;
        let first = seconds.min(round.get() - at);
        let rest = seconds - first;
        InRounds {
            at,
            first,
            whole: rest / round,
            last: rest % round,
        }
    }
}
