ghost use Rattle.indication.specs.Format.{content_of, listed};
ghost use Rattle.record.specs.Operators.{origin_after, received_by, switched_at, switched_over, tariff_in, with_current, with_next};
ghost use Rattle.std.specs.Prelude.{◌≡◌};

use crate::call::Call;
use crate::operator::Operator;
use indication::entries::Entries;
use indication::header::{Change, TariffControl};
use indication::value::Indication;
use tariffs::tariff::Tariff;
use units::unit::Bounded;

// The tariff that an indication says, if any.
fn tariff_in(control: TariffControl, entries: &Entries) -> Option<Tariff>
    ensures { result ≡ tariff_in control (listed entries.now) }
{
    match entries.as_slice() {
        [] => None,
        entries => Some(Tariff::of(control, entries)),
    }
}

// From when the seconds are counted after a change: a restart counts only after the beginning.
fn origin_after(clock: u32, change: Change, beginning: Option<u32>) -> Option<u32>
    ensures { result ≡ origin_after clock change beginning }
{
    match (change, beginning) {
        (Change::WithRestart, Some(_)) => Some(clock),
        _ => beginning,
    }
}

impl Operator {
    // A current tariff replaces the one in force.
    fn with_current(self, clock: u32, change: Change, current: Option<Tariff>) -> Operator
        ensures { result ≡ with_current clock change current self }
    {
        let Some(tariff) = current else {
            return self;
        };
        let origin = origin_after(clock, change, self.beginning);
        Operator {
            tariff,
            origin,
            ..self
        }
    }

    // A next tariff replaces the pending one, and its absence clears it.
    fn with_next(self, call: &Call, quarter: u8, next: Option<Tariff>) -> Operator
        ensures { result ≡ with_next call.now.opening quarter call.now.clock next self }
    {
        let due = call.due_for(quarter, next);
        Operator { next, due, ..self }
    }

    // The pending tariff takes over, counted from the operator's beginning.
    pub(crate) fn switched_over(self) -> Operator
        ensures { result ≡ switched_over self }
    {
        Operator {
            tariff: self.next.unwrap_or(self.tariff),
            next: None,
            due: None,
            origin: self.beginning,
            ..self
        }
    }

    // The switch-over that falls due at a moment.
    fn switched_at(self, clock: u32) -> Operator
        ensures { result ≡ switched_at clock self }
    {
        if self.due == Some(u64::from(clock)) {
            self.switched_over()
        } else {
            self
        }
    }

    // The operator with an accepted tariff indication.
    pub(crate) fn received<U: Bounded>(
        self,
        unit: &U,
        call: &Call,
        indication: &Indication,
    ) -> Operator
        ensures { result ≡ received_by (U.Unit.meaning unit.now) call.now.opening call.now.phase call.now.clock (content_of indication.now) self }
    {
        let header = indication.header;
        let current = tariff_in(header.current_control, &indication.current);
        let next = tariff_in(header.next_control, &indication.next);
        self.with_current(call.clock, header.change, current)
            .with_next(call, header.quarter, next)
            .switched_at(call.clock)
            .begun_in(unit, call.phase, call.clock)
    }
}
