//! Numbers written in decimal digits.

ghost use Rattle.lines.specs.Decimal.{Writes, number};
ghost use Rattle.std.specs.Option.{SomeIff};

/// The number that the text writes. `None` where the text is empty, has a byte that is no digit, or writes
/// 2^32 or more; zeros in front are allowed.
pub fn parse(text: &[u8]) -> Option<u32>
    ensures { SomeIff result (Writes text.now) (number text.now) }
{
    if text.is_empty() {
        return None;
    }
    // a `for` with `?`: by `try_fold`, that the value is the text's number stayed open
    let mut value = 0u32;
    for byte in text {
        let digit = char::from(*byte).to_digit(10)?;
        // one bound for both: `checked_mul` and `checked_add` take nearly twice the time
        value = u32::try_from(u64::from(value) * 10 + u64::from(digit)).ok()?;
    }
    Some(value)
}
