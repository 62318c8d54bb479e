/// What can be asked of a meter.
#[derive(Clone, Copy)]
pub enum Request<'a> {
    /// an indication, in bytes
    Tariff(&'a [u8]),
    AddOn(&'a [u8]),
    /// so many seconds pass
    Advance(u32),
    Start,
    Release,
    /// what a network is owed
    AmountOwed(u64),
    /// what a network would be owed so many seconds later
    LookAhead(u64, u32),
    /// the statement: its total, and a line of it
    Total,
    Line(usize),
}
