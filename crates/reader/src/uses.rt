ghost use Rattle.indication.specs.Rules.{BrokenUse, First, MisusedAt, Tells, uses_from};
ghost use Rattle.reader.specs.Order.{GoesOn};

use crate::bytes::{byte, term_offset};
use crate::codes::{kind, usage};
use indication::entry::Usage;
use indication::header::Kind;

// Whether a use goes on with the order: an attempt is first, a set-up is first or follows an attempt, and a subtariff
// has no subtariff four places before it.
fn goes_on(bytes: &[u8], first: u8, k: u8) -> bool
    ensures { Tells result (GoesOn (uses_from bytes.now first) k) }
{
    let usage_at = |k: u8| usage(bytes, u16::from(first) + u16::from(k));
    match usage_at(k) {
        Some(Usage::Attempt) => k == 0,
        Some(Usage::SetUp) => k == 0 || usage_at(k - 1) == Some(Usage::Attempt),
        Some(Usage::Periodic | Usage::OneTime) => {
            k < 4 || !matches!(usage_at(k - 4), Some(Usage::Periodic | Usage::OneTime))
        }
        Some(Usage::AddOn) | None => false,
    }
}

// The first use byte at which the tariff of `count` entries from `first` on leaves the order.
// Two numbers and no struct for such a tariff, since only this function and `values::entries` take the pair.
fn misused(bytes: &[u8], first: u8, count: u8) -> Option<usize>
    ensures { First (MisusedAt bytes.now first count) result }
{
    (0..count)
        .find(|k| !goes_on(bytes, first, *k))
        .map(|k| term_offset(bytes, u16::from(first) + u16::from(k)))
}

// The first use byte that breaks the layout.
pub(crate) fn broken_use(bytes: &[u8]) -> Option<usize>
    ensures { First (BrokenUse bytes.now) result }
{
    let current = byte(bytes, 0);
    let next = byte(bytes, 1);
    match kind(bytes) {
        Some(Kind::Tariff) => {
            misused(bytes, 0, current).or_else(|| misused(bytes, current, next))
        }
        Some(Kind::AddOn) if usage(bytes, 0) != Some(Usage::AddOn) => Some(term_offset(bytes, 0)),
        _ => None,
    }
}
