ghost use Rattle.std.specs.Prelude.{◌≡◌, ℕ, ◌%◌, []};
ghost use Rattle.meter.specs.Meters.{CameBy, Performs, asked, call_of, unit_of};
ghost use Rattle.meter.specs.declared.meter.Meter.TheVariants.{Charging as while_charging, Closed as once_closed, SetUp as in_set_up};
ghost use Rattle.record.specs.Calls.{opened};

use crate::charging::Charging;
use crate::closed::Closed;
use crate::request::Request;
use crate::set_up::SetUp;
use account::answer::Answer;
use record::call::Call;
use units::unit::Bounded;

/// The meter of a call, in whatever state.
#[derive(Drop)]
pub enum Meter<U> {
    SetUp(SetUp<U>),
    Charging(Charging<U>),
    Closed(Closed<U>),
}

impl<U: Bounded> Meter<U> {
    /// The meter of a call that is opened at a second of the day, modulo 86,400.
    pub fn open(unit: U, second: u32) -> Meter<U>
        ensures { (unit_of result ≡ unit) × CameBy (U.Unit.meaning unit) (second % 86400) [] [] result }
    {
        unasked(SetUp::open(unit, second))
    }

    /// The record of the call.
    pub fn record(&self) -> Call
        ensures { result ≡ call_of self.now }
    {
        match self {
            Meter::SetUp(state) => state.call,
            Meter::Charging(state) => state.call,
            Meter::Closed(state) => state.call,
        }
    }
}

// The meter of a call of which nothing was asked yet.
fn unasked<U: Bounded>(call: SetUp<U>) -> Meter<U>
    ensures { (unit_of result ≡ call.unit) × ((second : ℕ) → call.call ≡ opened second → CameBy (U.Unit.meaning call.unit) (second % 86400) [] [] result) }
{
    Meter::SetUp(call)
}

/// Performs a request. One that the state does not allow is answered so, and changes nothing.
pub fn perform<U: Bounded + Drop>(meter: Meter<U>, request: Request) -> (Meter<U>, Answer)
    ensures { Performs U.Unit.meaning meter (asked request.entry) result.0 result.1 }
{
    match meter {
        Meter::SetUp(call) => perform_in_set_up(call, request),
        Meter::Charging(call) => perform_charging(call, request),
        Meter::Closed(call) => perform_closed(call, request),
    }
}

// A state has all that it allows in one function, though both open states answer three requests alike: what they share would
// have to be told the state that the meter is left in. State and request meet in this call alone, so they are two parameters.
fn perform_in_set_up<U: Bounded + Drop>(call: SetUp<U>, request: Request) -> (Meter<U>, Answer)
    ensures { Performs U.Unit.meaning (in_set_up call) (asked request.entry) result.0 result.1 }
{
    let mut call = call;
    match request {
        Request::Tariff(bytes) => {
            let answer = Answer::from(call.receive_tariff(bytes));
            (Meter::SetUp(call), answer)
        }
        Request::Advance(seconds) => {
            let answer = Answer::from(call.advance(seconds));
            (Meter::SetUp(call), answer)
        }
        Request::Start => (Meter::Charging(call.start()), Answer::Accepted),
        Request::Release => (Meter::Closed(call.release()), Answer::Accepted),
        _ => (Meter::SetUp(call), Answer::NotAllowed),
    }
}

fn perform_charging<U: Bounded + Drop>(call: Charging<U>, request: Request) -> (Meter<U>, Answer)
    ensures { Performs U.Unit.meaning (while_charging call) (asked request.entry) result.0 result.1 }
{
    let mut call = call;
    match request {
        Request::Tariff(bytes) => {
            let answer = Answer::from(call.receive_tariff(bytes));
            (Meter::Charging(call), answer)
        }
        Request::AddOn(bytes) => {
            let answer = Answer::from(call.receive_add_on(bytes));
            (Meter::Charging(call), answer)
        }
        Request::Advance(seconds) => {
            let answer = Answer::from(call.advance(seconds));
            (Meter::Charging(call), answer)
        }
        Request::AmountOwed(network) => {
            let answer = Answer::Owed(call.amount_owed(network));
            (Meter::Charging(call), answer)
        }
        Request::LookAhead(network, seconds) => {
            let answer = Answer::from(call.look_ahead(network, seconds));
            (Meter::Charging(call), answer)
        }
        Request::Release => (Meter::Closed(call.release()), Answer::Accepted),
        _ => (Meter::Charging(call), Answer::NotAllowed),
    }
}

fn perform_closed<U: Bounded + Drop>(call: Closed<U>, request: Request) -> (Meter<U>, Answer)
    ensures { Performs U.Unit.meaning (once_closed call) (asked request.entry) result.0 result.1 }
{
    let answer = match request {
        Request::Total => Answer::Total(call.total()),
        Request::Line(k) => Answer::Line(call.line(k)),
        _ => Answer::NotAllowed,
    };
    (Meter::Closed(call), answer)
}
