ghost use Rattle.indication.specs.Format.{charge_at, content_of, current_count, decoded, encoded, header_of, if_entry, next_count, term_at};
ghost use Rattle.indication.specs.Rules.{Accepted, Refused};
ghost use Rattle.reader.specs.Readers.{lent};
ghost use Rattle.std.specs.Prelude.{◌≡◌, MatchResult};

use crate::bytes::{byte, entry_count};
use crate::durations::disallowed;
use crate::header::broken_header;
use crate::length::{is_empty, wrong_length};
use crate::uses::broken_use;
use crate::values::{charge_at, header_of, indication_of, term_at};
use indication::entry::{Charge, Term};
use indication::fault::Fault;
use indication::header::{Header, Kind};
use indication::value::Indication;

/// An indication over the lent bytes. Its charges and terms are read where they lie.
#[derive(Clone, Copy)]
pub struct Reader<'a> {
    bytes: &'a [u8],
}

impl<'a> Reader<'a> {
    /// Takes well-formed indications of the kind that the caller takes, and refuses all else.
    pub fn read(bytes: &'a [u8], taken: Kind) -> Result<Reader<'a>, Fault>
        ensures { MatchResult result (λ i. Accepted taken bytes.now × (lent i ≡ bytes.now)) (λ f. Refused taken bytes.now f) }
    {
        if let Some(offset) = wrong_length(bytes) {
            return Err(Fault::WrongLength(offset));
        }
        if let Some(offset) = broken_header(bytes, taken) {
            return Err(Fault::BrokenLayout(offset));
        }
        if let Some(offset) = broken_use(bytes) {
            return Err(Fault::BrokenLayout(offset));
        }
        if is_empty(bytes) {
            return Err(Fault::EmptyTariff);
        }
        if let Some(offset) = disallowed(bytes) {
            return Err(Fault::WrongDuration(offset));
        }
        Ok(Reader { bytes })
    }

    /// What the indication says beside its entries.
    pub fn header(&self) -> Header
        ensures { result ≡ header_of (lent self.now) }
    {
        header_of(self.bytes)
    }

    /// How many entries the current tariff has; they come first.
    pub fn current_count(&self) -> u8
        ensures { result ≡ current_count (lent self.now) }
    {
        byte(self.bytes, 0)
    }

    /// How many entries the next tariff has; they follow the current one's.
    pub fn next_count(&self) -> u8
        ensures { result ≡ next_count (lent self.now) }
    {
        byte(self.bytes, 1)
    }

    /// The charge of entry i, where there is such an entry.
    pub fn charge(&self, i: usize) -> Option<Charge>
        ensures { result ≡ if_entry (lent self.now) i (charge_at (lent self.now) i) }
    {
        let i = self.entry(i)?;
        Some(charge_at(self.bytes, i))
    }

    /// The term of entry i, where there is such an entry.
    pub fn term(&self, i: usize) -> Option<Term>
        ensures { result ≡ if_entry (lent self.now) i (term_at (lent self.now) i) }
    {
        let i = self.entry(i)?;
        Some(term_at(self.bytes, i))
    }

    // The index of entry i, where there is such an entry. Its charge and its term stand apart in the bytes, and each has a
    // definition of its own.
    fn entry(&self, i: usize) -> Option<u16>
        ensures { result ≡ if_entry (lent self.now) i i }
    {
        let count = entry_count(self.bytes);
        u16::try_from(i).ok().filter(|i| *i < count)
    }

    /// The indication as a value of its own. Written again, an accepted one gives the same bytes.
    pub fn indication(&self) -> Indication
        ensures says { content_of result ≡ decoded (lent self.now) }
        ensures again { (taken : Kind) → Accepted taken (lent self.now) → encoded (content_of result) ≡ lent self.now }
    {
        indication_of(self.bytes)
    }
}
