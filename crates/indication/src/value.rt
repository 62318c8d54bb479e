use crate::entries::Entries;
use crate::header::Header;

/// An indication as a value of its own.
#[derive(Clone, Copy)]
pub struct Indication {
    pub header: Header,
    pub current: Entries,
    pub next: Entries,
}
