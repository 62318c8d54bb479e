//! A call that charges.

ghost use Rattle.indication.specs.declared.header.Kind.TheVariants.{AddOn};
ghost use Rattle.inquiry.specs.Inquiries.{LooksAhead, owed_in};
ghost use Rattle.record.specs.Refusals.{Received};
ghost use Rattle.std.specs.Prelude.{◌≡◌};

use crate::metered::{Metered, Started};
use indication::fault::Fault;
use indication::header::Kind;
use inquiry::{ahead, amount};
use units::unit::Bounded;

/// A call that charges.
pub type Charging<U> = Metered<Started, U>;

impl<U: Bounded> Charging<U> {
    /// Takes the bytes for an add-on indication.
    // apart from `receive_tariff`, and no kind as a parameter: that a call in set-up takes no add-on is said by its type
    pub fn receive_add_on(&mut self, bytes: &[u8]) -> Result<(), Fault>
        ensures same { self.new.unit ≡ self.old.unit }
        ensures received { Received (U.Unit.meaning self.old.unit) self.old.call AddOn bytes.now result self.new.call }
    {
        self.call.receive(&self.unit, Kind::AddOn, bytes)
    }

    /// What a network is owed; none where the call does not know it.
    pub fn amount_owed(&self, network: u64) -> Option<u64>
        ensures { result ≡ owed_in network self.now.call.operators }
    {
        amount::amount_owed(&self.call, network)
    }

    /// What a network would be owed so many seconds later, without further indications.
    pub fn look_ahead(&mut self, network: u64, seconds: u32) -> Result<Option<u64>, Fault>
        ensures same { self.new ≡ self.old }
        ensures told { LooksAhead (U.Unit.meaning self.old.unit) self.old.call network seconds result }
    {
        ahead::look_ahead(&mut self.call, &self.unit, network, seconds)
    }
}
