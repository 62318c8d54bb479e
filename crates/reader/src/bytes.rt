ghost use Rattle.std.specs.Prelude.{◌≡◌, ◌+◌, ◌^◌, ◌<◌};
ghost use Rattle.indication.specs.Format.{byte as byte_at, entry_count, part, term_offset};

use std::array;

// What is read of the bytes is a function of them and of the place, and no method of the reader: the checks come before
// there is one.

// The byte at an offset; 0 past the end, where an accepted indication has nothing.
pub(crate) fn byte(bytes: &[u8], at: usize) -> u8
    ensures { result ≡ byte_at bytes.now at }
{
    bytes.get(at).copied().unwrap_or(0)
}

// The N bytes from an offset on.
pub(crate) fn part<const N: usize>(bytes: &[u8], at: usize) -> [u8; N]
    requires { at + N < 2 ^ 64 }
    ensures { result ≡ part bytes.now at N }
{
    array::from_fn(|k| byte(bytes, at + k))
}

// How many entries the two counts say.
pub(crate) fn entry_count(bytes: &[u8]) -> u16
    ensures { result ≡ entry_count bytes.now }
{
    u16::from(byte(bytes, 0)) + u16::from(byte(bytes, 1))
}

// The first byte of the term of entry i.
pub(crate) fn term_offset(bytes: &[u8], i: u16) -> usize
    ensures { result ≡ term_offset bytes.now i }
{
    24 + 6 * usize::from(entry_count(bytes)) + 3 * usize::from(i)
}
