//! The commands to a meter.

ghost use Rattle.commands.specs.Arguments.{FrontOnly};
ghost use Rattle.commands.specs.Sayings.{NothingFits, Says, said_of, size_of};
ghost use Rattle.std.specs.Prelude.{◌≡◌, length, MatchOption};

use crate::argument;

/// What a line asks of the meter. The bytes of an indication stand at the front of the buffer.
// A count, and no bytes of its own: a command is copied as a plain value, and the buffer may be of any length.
#[derive(Clone, Copy, PartialEq, Eq, Debug)]
pub enum Command {
    /// take a tariff indication of so many bytes
    Tariff(usize),
    /// take an add-on indication of so many bytes
    AddOn(usize),
    /// let so many seconds pass
    Advance(u32),
    /// start charging
    Start,
    /// release the call
    Release,
}

/// The command that the line writes: `T` or `A`, one space, and an indication in hexadecimal, which is put at
/// the front of `bytes` (a letter alone has an indication of no bytes); `W`, one space, and seconds in decimal,
/// below 2^32; `S` alone; or `R` alone. `None` of any other line, and of an indication longer than `bytes`, which
/// then stay as they were.
pub fn parse_command(line: &[u8], bytes: &mut [u8]) -> Option<Command>
    ensures { MatchOption result
        (NothingFits line.now (length bytes.old) × (bytes.new ≡ bytes.old))
        (λ command. Says line.now (said_of command bytes.new)
        × FrontOnly (size_of command) bytes.old bytes.new) }
{
    let (letter, rest) = line.split_first()?;
    match letter {
        b'T' => Some(Command::Tariff(argument::indication(rest, bytes)?)),
        b'A' => Some(Command::AddOn(argument::indication(rest, bytes)?)),
        b'W' => Some(Command::Advance(argument::number(rest)?)),
        b'S' if rest.is_empty() => Some(Command::Start),
        b'R' if rest.is_empty() => Some(Command::Release),
        _ => None,
    }
}
