ghost use Rattle.std.specs.Prelude.{◌≡◌, ◌<◌, IfSome, None, position, slice_index_or};
ghost use Rattle.record.specs.Calls.{is_seated, seat_of};
ghost use Rattle.record.specs.Operators.{newcomer};
ghost use Rattle.record.specs.Seats.{index_found, index_of, is_full, seat_for, seated, suits};
ghost use Rattle.std.specs.Option.{option_map, unwrap_or};

use crate::call::Call;
use crate::operator::Operator;
use crate::seat::Seat;
use indication::fault::Fault;
use indication::header::Kind;

// Whether a seat is free, or the network's.
fn suits(seat: Option<Operator>, network: u64) -> bool
    ensures { result ≡ suits network seat }
{
    seat.is_none_or(|operator| operator.network == network)
}

// The place of the seat that a network has, or of the first free one.
fn place(seats: &[Option<Operator>; 4], network: u64) -> Option<usize>
    ensures is { result ≡ position (suits network) seats.now }
    ensures within { IfSome result (λ i. i < 4) }
{
    seats.iter().position(|seat| suits(*seat, network))
}

impl Call {
    // The seat that a network has, or the first free one.
    fn seat_of(&self, network: u64) -> Option<Seat>
        ensures { option_map index_of result ≡ seat_of network self.now.operators }
    {
        let index = place(&self.operators, network)?;
        Some(Seat { index })
    }

    fn is_seated(&self, network: u64) -> bool
        ensures { result ≡ is_seated network self.now.operators }
    {
        self.seat_of(network)
            .is_some_and(|seat| self.operators[seat.index].is_some())
    }

    // Whether no more indications are accepted.
    fn is_full(&self) -> bool
        ensures { result ≡ is_full self.now }
    {
        self.accepted >= 512
    }

    // The seat that an indication of a kind with `count` current entries finds.
    pub(crate) fn seat_for(&self, kind: Kind, network: u64, count: u8) -> Result<Seat, Fault>
        ensures { index_found result ≡ seat_for self.now kind network count }
    {
        if self.is_full() {
            return Err(Fault::TooManyIndications);
        }
        if !self.is_seated(network) {
            match kind {
                Kind::AddOn => return Err(Fault::AddOnBeforeTariff),
                Kind::Tariff if count == 0 => return Err(Fault::NoCurrentTariff),
                Kind::Tariff => {}
            }
        }
        self.seat_of(network).ok_or(Fault::TooManyNetworks)
    }

    // The operator in a seat, and a newcomer in a free one.
    pub(crate) fn occupant(&self, seat: Seat, network: u64) -> Operator
        ensures { result ≡ unwrap_or (slice_index_or self.now.operators seat.index None) (newcomer network) }
    {
        self.operators[seat.index].unwrap_or(Operator::newcomer(network))
    }

    // One more indication is accepted, and the operator is in the seat.
    pub(crate) fn accept(&mut self, seat: Seat, operator: Operator)
        requires { self.old.accepted < 512 }
        ensures { self.new ≡ seated seat.index operator self.old }
    {
        self.accepted += 1;
        self.operators[seat.index] = Some(operator);
    }
}
