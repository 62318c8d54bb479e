ghost use Rattle.std.specs.Prelude.{◌≡◌, ◌≤◌, length};

use crate::entry::Entry;

/// The entries of one tariff, at most six, in their order; none where the tariff is absent.
// An array and its count, and no `ArrayVec`: an indication is copied as a plain value, and an `ArrayVec` is not `Copy`.
#[derive(Clone, Copy)]
pub struct Entries {
    // the first `count` of these, and the others mean nothing
    pub(crate) slots: [Entry; 6],
    pub(crate) count: usize,
    ghost few: { count ≤ 6 },
    ghost six: { length slots ≡ 6 },
}
