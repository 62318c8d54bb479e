//! What stands on a line behind its letter.

ghost use Rattle.std.specs.Prelude.{◌≡◌, ℕ, length, take, MatchOption};
ghost use Rattle.commands.specs.Arguments.{FrontOnly, Indicates, NoneFits, Numbers};

use lines::{decimal, hexadecimal};

// The number behind one space.
pub(crate) fn number(rest: &[u8]) -> Option<u32>
    ensures { MatchOption result ((n : ℕ) → Numbers rest.now n → ⊥) (λ n. Numbers rest.now n) }
{
    rest.strip_prefix(b" ").and_then(decimal::parse)
}

// Puts the bytes of an indication at the front of `bytes`, and returns how many they are.
pub(crate) fn indication(rest: &[u8], bytes: &mut [u8]) -> Option<usize>
    ensures { MatchOption result
        (NoneFits rest.now (length bytes.old) × (bytes.new ≡ bytes.old))
        (λ n. Indicates rest.now (take n bytes.new) × FrontOnly n bytes.old bytes.new) }
{
    match rest.split_first() {
        None => Some(0),
        Some((b' ', digits)) => hexadecimal::decode(digits, bytes).ok(),
        _ => None,
    }
}
