ghost use Rattle.indication.specs.Faults.{number_of, layer_of, offset_of};
ghost use Rattle.std.specs.Prelude.{◌≡◌};

/// The layer that raises a refusal.
#[derive(Clone, Copy, PartialEq, Eq, Debug)]
pub enum Layer {
    Reader,
    Unit,
    Writer,
    Meter,
}

/// Why an indication or an advance is refused, with the offset of the byte that shows it.
#[derive(Clone, Copy, PartialEq, Eq, Debug)]
pub enum Fault {
    /// the length is not the one that the two counts ask for
    WrongLength(usize),
    /// a byte breaks the layout, the kind or the order of uses
    BrokenLayout(usize),
    /// a tariff indication without an entry
    EmptyTariff,
    /// a length that its entry may not have
    WrongDuration(usize),
    /// the mark of another charge unit
    ForeignMark,
    /// a charge that the unit does not admit for its use
    NotAdmitted(usize),
    /// the buffer has not the room that is needed: so many bytes
    NoRoom(usize),
    /// 512 indications were accepted already
    TooManyIndications,
    /// an add-on from a network of which no tariff was accepted
    AddOnBeforeTariff,
    /// the first tariff indication of a network has no current tariff
    NoCurrentTariff,
    /// a fifth network
    TooManyNetworks,
    /// past the last second of a call: so many are left
    PastLimit(u32),
}

// Three readings of a refusal, each by its name: a `From` would not say which.
impl Fault {
    // a number, since an exchange is told numbers, and the one with the smallest goes first
    pub fn number(self) -> u8
        ensures { result ≡ number_of self }
    {
        match self {
            Fault::WrongLength(_) => 1,
            Fault::BrokenLayout(_) => 2,
            Fault::EmptyTariff => 3,
            Fault::WrongDuration(_) => 4,
            Fault::ForeignMark => 5,
            Fault::NotAdmitted(_) => 6,
            Fault::NoRoom(_) => 7,
            Fault::TooManyIndications => 11,
            Fault::AddOnBeforeTariff => 12,
            Fault::NoCurrentTariff => 13,
            Fault::TooManyNetworks => 14,
            Fault::PastLimit(_) => 15,
        }
    }

    pub fn layer(self) -> Layer
        ensures { result ≡ layer_of self }
    {
        match self {
            Fault::WrongLength(_)
            | Fault::BrokenLayout(_)
            | Fault::EmptyTariff
            | Fault::WrongDuration(_) => Layer::Reader,
            Fault::ForeignMark | Fault::NotAdmitted(_) => Layer::Unit,
            Fault::NoRoom(_) => Layer::Writer,
            Fault::TooManyIndications
            | Fault::AddOnBeforeTariff
            | Fault::NoCurrentTariff
            | Fault::TooManyNetworks
            | Fault::PastLimit(_) => Layer::Meter,
        }
    }

    // 0 is where these refusals show, and no sign for none
    pub fn offset(self) -> usize
        ensures { result ≡ offset_of self }
    {
        match self {
            Fault::WrongLength(offset)
            | Fault::BrokenLayout(offset)
            | Fault::WrongDuration(offset)
            | Fault::NotAdmitted(offset) => offset,
            Fault::EmptyTariff => 0,
            Fault::TooManyIndications => 0,
            Fault::ForeignMark => 7,
            Fault::NoRoom(needed) => needed,
            Fault::AddOnBeforeTariff | Fault::NoCurrentTariff | Fault::TooManyNetworks => 12,
            Fault::PastLimit(left) => left as usize,
        }
    }
}
