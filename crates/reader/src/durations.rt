ghost use Rattle.indication.specs.Rules.{AllowedAt, DisallowedAt, First, IsLast, Tells};

use crate::bytes::{byte, entry_count, term_offset};
use crate::codes::{duration, usage};
use indication::entry::Usage;

// Whether entry i is the last of its tariff.
fn is_last(bytes: &[u8], i: u16) -> bool
    ensures { Tells result (IsLast bytes.now i) }
{
    let end = usize::from(i) + 1;
    end == usize::from(byte(bytes, 0)) || end == usize::from(entry_count(bytes))
}

// Whether entry i may have its duration.
fn allowed_at(bytes: &[u8], i: u16) -> bool
    ensures { Tells result (AllowedAt bytes.now i) }
{
    let duration = duration(bytes, i);
    match usage(bytes, i) {
        Some(Usage::Periodic) if duration == 0 => is_last(bytes, i),
        Some(Usage::Periodic | Usage::OneTime) => 0 < duration && duration <= 36000,
        Some(Usage::SetUp | Usage::Attempt | Usage::AddOn) | None => duration == 0,
    }
}

// The first duration that is not allowed, by the offset of its first byte.
pub(crate) fn disallowed(bytes: &[u8]) -> Option<usize>
    ensures { First (DisallowedAt bytes.now) result }
{
    (0..entry_count(bytes))
        .find(|i| !allowed_at(bytes, *i))
        .map(|i| term_offset(bytes, i) + 1)
}
