ghost use Rattle.std.specs.Prelude.{◌≤◌, length, IfNone};
ghost use Rattle.indication.specs.Rules.{First, IsEmpty, Tells, WrongLengthAt};

use crate::bytes::entry_count;
use crate::codes::kind;
use indication::header::Kind;

// Where a length that is not the one that the counts ask for shows.
pub(crate) fn wrong_length(bytes: &[u8]) -> Option<usize>
    ensures first { First (WrongLengthAt bytes.now) result }
    ensures none { IfNone result (24 ≤ length bytes.now) }
{
    if bytes.len() < 24 {
        return Some(bytes.len());
    }
    let full = 24 + 9 * usize::from(entry_count(bytes));
    if bytes.len() == full {
        return None;
    }
    Some(bytes.len().min(full))
}

// Whether it is a tariff indication without an entry.
pub(crate) fn is_empty(bytes: &[u8]) -> bool
    ensures { Tells result (IsEmpty bytes.now) }
{
    kind(bytes) == Some(Kind::Tariff) && entry_count(bytes) == 0
}
