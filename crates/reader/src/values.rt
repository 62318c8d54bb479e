ghost use Rattle.std.specs.Prelude.{◌≡◌, map, take};
ghost use Rattle.indication.specs.Format.{charge_at, content_of, decoded, encoded, entry_at, header_of, listed, term_at};
ghost use Rattle.indication.specs.Rules.{Accepted};
ghost use Rattle.std.specs.List.{range_with_len};

use crate::bytes::{byte, part};
use crate::codes::{duration, kind, usage};
use indication::entries::Entries;
use indication::entry::{Charge, Entry, Term, Usage};
use indication::header::{Change, Header, Kind, Mark, TariffControl};
use indication::value::Indication;

// Here and in `term_at` a code of no case, which an accepted indication has not, is read as the last case.
#[tactic(auto, using(crate::proofs::Decoded::decodings))]
pub(crate) fn header_of(bytes: &[u8]) -> Header
    ensures { result ≡ header_of bytes.now }
{
    Header {
        kind: kind(bytes).unwrap_or(Kind::AddOn),
        change: Change::try_from(byte(bytes, 3)).unwrap_or(Change::WithRestart),
        current_control: TariffControl::try_from(byte(bytes, 4)).unwrap_or(
            TariffControl::NonCyclic,
        ),
        next_control: TariffControl::try_from(byte(bytes, 5)).unwrap_or(TariffControl::NonCyclic),
        quarter: byte(bytes, 6),
        mark: Mark {
            kind: byte(bytes, 7),
            letters: part(bytes, 8),
        },
        network: u64::from_be_bytes(part(bytes, 12)),
        reference: u32::from_be_bytes(part(bytes, 20)),
    }
}

pub(crate) fn charge_at(bytes: &[u8], i: u16) -> Charge
    ensures { result ≡ charge_at bytes.now i }
{
    let at = 24 + 6 * usize::from(i);
    Charge {
        size: u32::from_be_bytes(part(bytes, at)),
        step: i16::from_be_bytes(part(bytes, at + 4)),
    }
}

pub(crate) fn term_at(bytes: &[u8], i: u16) -> Term
    ensures { result ≡ term_at bytes.now i }
{
    Term {
        usage: usage(bytes, i).unwrap_or(Usage::AddOn),
        duration: duration(bytes, i),
    }
}

fn entry_at(bytes: &[u8], i: u16) -> Entry
    ensures { result ≡ entry_at bytes.now i }
{
    Entry {
        charge: charge_at(bytes, i),
        term: term_at(bytes, i),
    }
}

// The entries of the tariff of `count` entries from `first` on; an accepted one has no more than six.
// A `for` that pushes, since a push may refuse: what comes behind a sixth entry is let go.
fn entries(bytes: &[u8], first: u8, count: u8) -> Entries
    ensures { listed result ≡ take 6 (map (entry_at bytes.now) (range_with_len first count)) }
{
    let mut entries = Entries::new();
    for k in 0..count {
        let _ = entries.push(entry_at(bytes, u16::from(first) + u16::from(k)));
    }
    entries
}

pub(crate) fn indication_of(bytes: &[u8]) -> Indication
    ensures says { content_of result ≡ decoded bytes.now }
    ensures again { (taken : Kind) → Accepted taken bytes.now → encoded (content_of result) ≡ bytes.now }
{
    let count = byte(bytes, 0);
    Indication {
        header: header_of(bytes),
        current: entries(bytes, 0, count),
        next: entries(bytes, count, byte(bytes, 1)),
    }
}
