ghost use Rattle.std.specs.Prelude.{◌≡◌, ◌-◌, ◌^◌, false, true, min, MatchOption};
ghost use Rattle.record.specs.Operators.{over_stretch, passed, reached, stretched};
ghost use Rattle.record.specs.Stretches.{Splits};

use crate::operator::Operator;
use crate::stretch::Stretch;
use units::unit::Bounded;

impl Stretch {
    // What passes before a moment and from it on, where the moment is reached: after the start, and at the end at the latest.
    fn split_at(self, due: u64) -> Option<(Stretch, Stretch)>
        ensures { MatchOption result (reached self.from self.seconds due ≡ false) (λ parts. (reached self.from self.seconds due ≡ true) × Splits self due parts.0 parts.1) }
    {
        let from = u64::from(self.from);
        if due <= from || due > from + u64::from(self.seconds) {
            return None;
        }
        let due = due as u32;
        let before = Stretch {
            from: self.from,
            seconds: due - self.from,
        };
        let after = Stretch {
            from: due,
            seconds: self.from + self.seconds - due,
        };
        Some((before, after))
    }
}

impl Operator {
    // What the tariff in force charges over a stretch, or the largest amount where it does not fit.
    fn price_over<U: Bounded>(self, unit: &U, stretch: Stretch) -> u64
        ensures { result ≡ min (over_stretch (U.Unit.meaning unit.now) self.tariff stretch.from stretch.seconds self.origin) (2 ^ 64 - 1) }
    {
        self.origin.map_or(0, |origin| {
            let from = stretch.from.saturating_sub(origin);
            self.tariff
                .price_of_stretch(unit, from, stretch.seconds)
                .unwrap_or(u64::MAX)
        })
    }

    // A stretch passes without a switch-over.
    fn stretched<U: Bounded>(self, unit: &U, stretch: Stretch) -> Operator
        ensures { result ≡ stretched (U.Unit.meaning unit.now) stretch.from stretch.seconds self }
    {
        self.owing(self.price_over(unit, stretch))
    }

    // A stretch passes.
    pub(crate) fn passed<U: Bounded>(self, unit: &U, stretch: Stretch) -> Operator
        ensures { result ≡ passed (U.Unit.meaning unit.now) stretch.from stretch.seconds self }
    {
        match self.due.and_then(|due| stretch.split_at(due)) {
            Some((before, after)) => self
                .stretched(unit, before)
                .switched_over()
                .stretched(unit, after),
            None => self.stretched(unit, stretch),
        }
    }
}
