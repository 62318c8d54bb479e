ghost use Rattle.record.specs.Calls.{entering, everyone, opened, released, started};
ghost use Rattle.record.specs.Operators.{owing, passed, price_of};
ghost use Rattle.record.specs.Refusals.{Passes};
ghost use Rattle.record.specs.declared.call.Phase.TheVariants.{Closed};
ghost use Rattle.std.specs.Iterator.{ActsAs};
ghost use Rattle.std.specs.Option.{option_map};
ghost use Rattle.std.specs.Prelude.{◌≡◌};

use crate::call::{Call, DAY, Phase};
use crate::operator::Operator;
use crate::owing::price_of;
use crate::stretch::Stretch;
use indication::fault::Fault;
use units::unit::Bounded;

impl Call {
    /// A call that is opened at a second, counted from a midnight.
    pub fn opened(second: u32) -> Call
        ensures { result ≡ opened second }
    {
        Call {
            opening: second % DAY,
            clock: 0,
            phase: Phase::SetUp,
            accepted: 0,
            operators: [None; 4],
        }
    }

    /// Lets seconds pass. A call has 86,400; an advance past the last of them is refused and changes nothing.
    pub fn advance<U: Bounded>(&mut self, unit: &U, seconds: u32) -> Result<(), Fault>
        ensures { Passes (U.Unit.meaning unit.now) self.old seconds result self.new }
    {
        let left = DAY.saturating_sub(self.clock);
        if seconds > left {
            return Err(Fault::PastLimit(left));
        }
        let stretch = Stretch {
            from: self.clock,
            seconds,
        };
        self.operators = self.operators_after(unit, stretch);
        self.clock += seconds;
        Ok(())
    }

    // The operators, after a stretch has passed for each.
    fn operators_after<U: Bounded>(&self, unit: &U, stretch: Stretch) -> [Option<Operator>; 4]
        ensures { result ≡ everyone (passed (U.Unit.meaning unit.now) stretch.from stretch.seconds) self.now.operators }
    {
        everyone(self.operators, |operator| operator.passed(unit, stretch))
    }

    /// Starts charging, where the call is in set-up: every operator begins.
    pub fn start<U: Bounded>(&mut self, unit: &U)
        ensures { self.new ≡ started (U.Unit.meaning unit.now) self.old }
    {
        if self.phase == Phase::SetUp {
            let clock = self.clock;
            self.enter(Phase::Charging, |operator| {
                operator.begun_in(unit, Phase::Charging, clock)
            });
        }
    }

    /// Closes the call. In set-up, the attempt charge of each tariff in force is added.
    pub fn release<U: Bounded>(&mut self, unit: &U)
        ensures { self.new ≡ released (U.Unit.meaning unit.now) self.old }
    {
        match self.phase {
            Phase::SetUp => self.give_up(unit),
            Phase::Charging => self.close(),
            Phase::Closed => {}
        }
    }

    // The call enters a phase, and every operator changes.
    fn enter<F: Fn(Operator) -> Operator>(&mut self, phase: Phase, change: F)
        requires { F.IsAlwaysCallable change }
        ensures { (changed : Operator → Operator) → ActsAs F.FnMut change changed → self.new ≡ entering phase changed self.old }
    {
        self.operators = everyone(self.operators, change);
        self.phase = phase;
    }

    // The call is closed before it charged: every operator is owed the attempt charge of its tariff in force.
    fn give_up<U: Bounded>(&mut self, unit: &U)
        ensures { self.new ≡ entering Closed (λ op. owing (price_of (U.Unit.meaning unit.now) op.tariff.attempt) op) self.old }
    {
        self.enter(Phase::Closed, |operator| {
            operator.owing(price_of(unit, operator.tariff.attempt))
        });
    }

    // The call is closed, and its operators are as they were.
    fn close(&mut self)
        ensures { self.new ≡ entering Closed (λ op. op) self.old }
    {
        self.phase = Phase::Closed;
    }
}

// Every operator changes.
fn everyone<F: Fn(Operator) -> Operator>(
    seats: [Option<Operator>; 4],
    change: F,
) -> [Option<Operator>; 4]
    requires { F.IsAlwaysCallable change }
    ensures { (changed : Operator → Operator) → ActsAs F.FnMut change changed → result ≡ everyone changed seats }
{
    // seat by seat: `map` of the array moves all four through an iterator, and an advance takes up to twice the time
    let [a, b, c, d] = seats;
    [
        seat_after(a, &change),
        seat_after(b, &change),
        seat_after(c, &change),
        seat_after(d, &change),
    ]
}

// The operator in a seat changes. A `match`: `map` moves the operator once more.
fn seat_after<F: Fn(Operator) -> Operator>(seat: Option<Operator>, change: &F) -> Option<Operator>
    requires { F.IsAlwaysCallable change.now }
    ensures { (changed : Operator → Operator) → ActsAs F.FnMut change.now changed → result ≡ option_map changed seat }
{
    match seat {
        Some(operator) => Some(change(operator)),
        None => None,
    }
}
