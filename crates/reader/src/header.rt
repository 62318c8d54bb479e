ghost use Rattle.std.specs.Prelude.{◌≤◌, T, length};
ghost use Rattle.indication.specs.Rules.{BrokenHeader, First, Tells, WrongCount, WrongFlag, WrongQuarter};

use crate::codes::kind;
use indication::header::Kind;

// The first byte of the header that breaks the layout.
pub(crate) fn broken_header(bytes: &[u8], taken: Kind) -> Option<usize>
    requires { 24 ≤ length bytes.now }
    ensures { First (BrokenHeader taken bytes.now) result }
{
    let [
        current,
        next,
        _kind,
        change,
        current_control,
        next_control,
        quarter,
        _unit,
        _rest @ ..,
    ] = bytes
    else {
        return None;
    };
    let kind = kind(bytes);
    let add_on = kind == Some(Kind::AddOn);
    if wrong_count(*current, add_on, 1) {
        return Some(0);
    }
    if wrong_count(*next, add_on, 0) {
        return Some(1);
    }
    if kind != Some(taken) {
        return Some(2);
    }
    if wrong_flag(*change, add_on) {
        return Some(3);
    }
    if wrong_flag(*current_control, add_on || *current == 0) {
        return Some(4);
    }
    if wrong_flag(*next_control, *next == 0) {
        return Some(5);
    }
    if wrong_quarter(*quarter, *next) {
        return Some(6);
    }
    // by index: of what is behind the first eight bytes, one is asked for
    if bytes[11] != 0 { Some(11) } else { None }
}

// A tariff has at most six entries, and an add-on as many as it wants of each.
fn wrong_count(count: u8, add_on: bool, wanted: u8) -> bool
    ensures { Tells result (WrongCount (T add_on) wanted count) }
{
    count > 6 || (add_on && count != wanted)
}

// A flag is 0 or 1, and 0 where it has nothing to say; a number here, since three fields of two enums go by this rule.
fn wrong_flag(flag: u8, idle: bool) -> bool
    ensures { Tells result (WrongFlag (T idle) flag) }
{
    flag > 1 || (idle && flag != 0)
}

// A quarter goes with a next tariff, which has so many entries.
fn wrong_quarter(quarter: u8, count: u8) -> bool
    ensures { Tells result (WrongQuarter count quarter) }
{
    if count == 0 {
        quarter != 0
    } else {
        quarter == 0 || quarter > 96
    }
}
