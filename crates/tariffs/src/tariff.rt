use indication::entry::Charge;
use indication::header::TariffControl;

/// When a subtariff takes its charge: again and again while it lasts, or whole at its first second.
#[derive(Clone, Copy, PartialEq, Eq, Debug)]
pub enum Charging {
    Periodic,
    OneTime,
}

#[derive(Clone, Copy, PartialEq, Eq, Debug)]
pub struct Subtariff {
    pub charge: Charge,
    pub charging: Charging,
    /// in seconds; 0 is without end, as in an indication, and what an account counts is stated over this number
    pub duration: u16,
}

/// What an operator charges in one call. The sequence is that of the subtariffs in the slots, and empty slots mean
/// nothing.
#[derive(Clone, Copy, PartialEq, Eq, Debug)]
pub struct Tariff {
    pub attempt: Option<Charge>,
    pub set_up: Option<Charge>,
    pub control: TariffControl,
    // an array of slots and no list with a length: the memory is fixed, and empty slots are passed over
    pub subtariffs: [Option<Subtariff>; 4],
}
