//! A call that is metered, whose state is a type.

ghost use Rattle.indication.specs.declared.header.Kind.TheVariants.{Tariff};
ghost use Rattle.record.specs.Calls.{released};
ghost use Rattle.record.specs.Refusals.{Passes, Received};
ghost use Rattle.std.specs.Prelude.{◌≡◌};

use crate::closed::Closed;
use indication::fault::Fault;
use indication::header::Kind;
use record::call::Call;
use std::marker::PhantomData;
use units::unit::Bounded;

mod sealed {
    pub trait Sealed {}
}

/// A state in which a call takes tariffs, lets seconds pass and can be released.
pub trait Open: sealed::Sealed {}

/// The call has not begun to charge.
#[derive(Clone, Copy)]
pub struct Unstarted;

/// The call charges.
#[derive(Clone, Copy)]
pub struct Started;

/// The call was released.
#[derive(Clone, Copy)]
pub struct Released;

impl sealed::Sealed for Unstarted {}

impl sealed::Sealed for Started {}

impl Open for Unstarted {}

impl Open for Started {}

/// One call, metered in a unit, in the state `S`.
#[derive(Drop)]
pub struct Metered<S, U> {
    pub(crate) unit: U,
    pub(crate) call: Call,
    pub(crate) state: PhantomData<S>,
}

impl<S, U> Metered<S, U> {
    // The same call, in a state that it has come to.
    pub(crate) fn into_state<T>(self) -> Metered<T, U>
        ensures { (result.unit ≡ self.unit) × (result.call ≡ self.call) }
    {
        Metered {
            unit: self.unit,
            call: self.call,
            state: PhantomData,
        }
    }
}

// That the unit stays is said by each method that changes the call: it is a fact of two moments, and an invariant knows one.
impl<S: Open, U: Bounded> Metered<S, U> {
    /// Takes the bytes for a tariff indication.
    pub fn receive_tariff(&mut self, bytes: &[u8]) -> Result<(), Fault>
        ensures same { self.new.unit ≡ self.old.unit }
        ensures received { Received (U.Unit.meaning self.old.unit) self.old.call Tariff bytes.now result self.new.call }
    {
        self.call.receive(&self.unit, Kind::Tariff, bytes)
    }

    /// Lets seconds pass.
    pub fn advance(&mut self, seconds: u32) -> Result<(), Fault>
        ensures same { self.new.unit ≡ self.old.unit }
        ensures passed { Passes (U.Unit.meaning self.old.unit) self.old.call seconds result self.new.call }
    {
        self.call.advance(&self.unit, seconds)
    }

    /// The call ends.
    pub fn release(mut self) -> Closed<U>
        ensures { (result.unit ≡ self.unit) × (result.call ≡ released (U.Unit.meaning self.unit) self.call) }
    {
        self.call.release(&self.unit);
        self.into_state()
    }
}
