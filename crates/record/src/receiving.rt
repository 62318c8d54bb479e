ghost use Rattle.indication.specs.Format.{content_of};
ghost use Rattle.record.specs.Operators.{add_on_price};
ghost use Rattle.record.specs.Refusals.{Received};
ghost use Rattle.record.specs.Seats.{Placed, indicated};
ghost use Rattle.std.specs.Prelude.{◌≡◌};

use crate::call::Call;
use crate::operator::Operator;
use crate::seat::Seat;
use indication::fault::Fault;
use indication::header::Kind;
use indication::value::Indication;
use units::admission::read_for;
use units::unit::Bounded;

// What an add-on costs.
fn add_on_price<U: Bounded>(unit: &U, indication: &Indication) -> u64
    ensures { result ≡ add_on_price (U.Unit.meaning unit.now) (content_of indication.now) }
{
    let first = indication.current.as_slice().first();
    first.map_or(0, |entry| unit.price(entry.charge))
}

impl Operator {
    // The operator with an accepted indication of a kind.
    fn indicated<U: Bounded>(
        self,
        unit: &U,
        call: &Call,
        kind: Kind,
        indication: &Indication,
    ) -> Operator
        ensures { result ≡ indicated kind (U.Unit.meaning unit.now) call.now (content_of indication.now) self }
    {
        match kind {
            Kind::Tariff => self.received(unit, call, indication),
            Kind::AddOn => self.owing(add_on_price(unit, indication)),
        }
    }
}

impl Call {
    /// Takes bytes for an indication of a kind: accepts it for its network's operator, or refuses it and changes nothing.
    pub fn receive<U: Bounded>(&mut self, unit: &U, kind: Kind, bytes: &[u8]) -> Result<(), Fault>
        ensures { Received (U.Unit.meaning unit.now) self.old kind bytes.now result self.new }
    {
        let (seat, operator) = self.placed(unit, kind, bytes)?;
        self.accept(seat, operator);
        Ok(())
    }

    // The seat of an indication's network, and the operator that is to be in it. Unit and kind are handed on, and kept nowhere.
    fn placed<U: Bounded>(
        &self,
        unit: &U,
        kind: Kind,
        bytes: &[u8],
    ) -> Result<(Seat, Operator), Fault>
        ensures { Placed (U.Unit.meaning unit.now) self.now kind bytes.now result }
    {
        let reader = read_for(bytes, kind, unit)?;
        let network = reader.header().network;
        let seat = self.seat_for(kind, network, reader.current_count())?;
        let operator = self.occupant(seat, network);
        Ok((
            seat,
            operator.indicated(unit, self, kind, &reader.indication()),
        ))
    }
}
