//! A call in set-up.

ghost use Rattle.record.specs.Calls.{opened, started};
ghost use Rattle.std.specs.Prelude.{◌≡◌};

use crate::charging::Charging;
use crate::metered::{Metered, Unstarted};
use record::call::Call;
use std::marker::PhantomData;
use units::unit::Bounded;

/// A call in set-up.
pub type SetUp<U> = Metered<Unstarted, U>;

impl<U: Bounded> SetUp<U> {
    /// A call that is opened at a second of the day, modulo 86,400.
    pub fn open(unit: U, second: u32) -> SetUp<U>
        ensures { (result.unit ≡ unit) × (result.call ≡ opened second) }
    {
        Metered {
            unit,
            call: Call::opened(second),
            state: PhantomData,
        }
    }

    /// Charging begins.
    pub fn start(mut self) -> Charging<U>
        ensures { (result.unit ≡ self.unit) × (result.call ≡ started (U.Unit.meaning self.unit) self.call) }
    {
        self.call.start(&self.unit);
        self.into_state()
    }
}
