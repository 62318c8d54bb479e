ghost use Rattle.indication.specs.Fits.{ChargeFits, TermFits};
ghost use Rattle.indication.specs.Format.{charge_bytes, first_eight, term_bytes};
ghost use Rattle.std.specs.Prelude.{◌≡◌};

use indication::entry::Entry;
use indication::header::Header;

// The first eight bytes of the header, with the counts of the two tariffs' entries.
pub(crate) fn first_eight(header: Header, current: u8, next: u8) -> [u8; 8]
    ensures { result ≡ first_eight current next header }
{
    [
        current,
        next,
        header.kind as u8,
        header.change as u8,
        header.current_control as u8,
        header.next_control as u8,
        header.quarter,
        header.mark.kind,
    ]
}

// The bytes of an entry's charge: its size, then its step.
pub(crate) fn charge_bytes(entry: Entry) -> [u8; 6]
    ensures bytes { result ≡ charge_bytes entry }
    ensures fits { ChargeFits entry }
{
    let [a, b, c, d] = entry.charge.size.to_be_bytes();
    let [e, f] = entry.charge.step.to_be_bytes();
    [a, b, c, d, e, f]
}

// The bytes of an entry's term: its use, then its duration.
pub(crate) fn term_bytes(entry: Entry) -> [u8; 3]
    ensures bytes { result ≡ term_bytes entry }
    ensures fits { TermFits entry }
{
    let [high, low] = entry.term.duration.to_be_bytes();
    [entry.term.usage as u8, high, low]
}
