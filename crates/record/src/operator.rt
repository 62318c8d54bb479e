ghost use Rattle.record.specs.Operators.{newcomer};
ghost use Rattle.std.specs.Prelude.{◌≡◌};

use indication::header::TariffControl;
use tariffs::tariff::Tariff;

/// What the call keeps of one operator. Moments are clock values: seconds since the call was opened.
// A moment is a number: the definitions and the charges compute with it, and a type of its own would only be unwrapped.
#[derive(Clone, Copy, PartialEq, Eq, Debug)]
pub struct Operator {
    pub network: u64,
    /// the tariff in force
    pub tariff: Tariff,
    // two Options and no pair, though they are empty together: the rules speak of each
    /// the tariff that takes over at the next switch-over
    pub next: Option<Tariff>,
    /// when the switch-over falls due; wide enough for a day after any clock value
    pub due: Option<u64>,
    /// when the operator began to charge
    pub beginning: Option<u32>,
    /// from when its tariff's seconds are counted
    pub origin: Option<u32>,
    pub owed: u64,
}

impl Operator {
    // An operator from which nothing has come.
    pub(crate) fn newcomer(network: u64) -> Operator
        ensures { result ≡ newcomer network }
    {
        Operator {
            network,
            tariff: Tariff::of(TariffControl::Cyclic, &[]),
            next: None,
            due: None,
            beginning: None,
            origin: None,
            owed: 0,
        }
    }
}
