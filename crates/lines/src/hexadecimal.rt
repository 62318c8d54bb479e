//! Bytes written as pairs of hexadecimal digits.

ghost use Rattle.std.specs.Prelude.{Some, ◌≡◌, ◌<◌, ◌++◌, length, drop, IfSome, MatchOption, MatchResult};
ghost use Rattle.lines.specs.Hexadecimal.{worth, Digit, Digits, Stray, byte_of, decoded, Accepted, Refused, told};

use std::error::Error;
use std::fmt;

/// Why a text is not decoded.
#[derive(Clone, Copy, PartialEq, Eq, Debug)]
pub enum HexFault {
    /// The byte at this offset, and none before it, is no hexadecimal digit.
    NotADigit { offset: usize },
    /// The text is all digits, but the last has no partner.
    OddDigits,
    /// The text is pairs of digits, but more of them than the buffer has bytes.
    NoRoom,
}

impl fmt::Display for HexFault {
    ghost output = { λ fault. Some (told fault) };

    fn fmt<W: fmt::Write>(&self, f: &mut fmt::Formatter<W>) -> fmt::Result {
        match *self {
            HexFault::NotADigit { offset } => {
                // one more than an offset always fits here
                let character = offset as u128 + 1;
                write!(f, "no hexadecimal digit at character {character}")
            }
            HexFault::OddDigits => f.write_str("an odd count of hexadecimal digits"),
            HexFault::NoRoom => f.write_str("more bytes than there is room for"),
        }
    }
}

impl Error for HexFault {}

/// What a digit is worth, in either case.
fn digit(byte: u8) -> Option<u32>
    ensures value { result ≡ worth byte }
    ensures small { IfSome result (λ d. d < 16) }
{
    char::from(byte).to_digit(16)
}

/// The byte that two digits write.
fn byte(high: u8, low: u8) -> u8
    requires { (Digit high) × (Digit low) }
    ensures { result ≡ byte_of high low }
{
    (16 * digit(high).unwrap() + digit(low).unwrap()) as u8
}

/// The offset of the first byte that is no digit.
fn stray(text: &[u8]) -> Option<usize>
    ensures { MatchOption result (Digits text.now) (λ at. Stray text.now at) }
{
    text.iter().position(|byte| digit(*byte).is_none())
}

/// Decodes a text of pairs of digits, in either case and the high one first, into the front of `out`, and
/// returns how many bytes it wrote. A refused text leaves `out` as it was.
pub fn decode(text: &[u8], out: &mut [u8]) -> Result<usize, HexFault>
    ensures { MatchResult result
        (λ n. Accepted text.now (length out.old) n
        × (out.new ≡ decoded text.now ++ drop n out.old))
        (λ fault. Refused text.now (length out.old) fault × (out.new ≡ out.old)) }
{
    if let Some(offset) = stray(text) {
        return Err(HexFault::NotADigit { offset });
    }
    let (pairs, alone) = text.as_chunks::<2>();
    if !alone.is_empty() {
        return Err(HexFault::OddDigits);
    }
    if out.len() < pairs.len() {
        return Err(HexFault::NoRoom);
    }
    // Memory is fixed: the room is the caller's, and the count tells how much of it is used. By index, since of what is
    // written through `out.iter_mut().zip(..)` a proof knows nothing after the loop.
    for (place, [high, low]) in pairs.iter().enumerate() {
        out[place] = byte(*high, *low);
    }
    Ok(pairs.len())
}
