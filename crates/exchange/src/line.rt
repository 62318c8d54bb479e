ghost use Rattle.commands.specs.Sayings.{said_of, size_of};
ghost use Rattle.exchange.specs.Exchanges.{LinePerformed, asked_by};
ghost use Rattle.meter.specs.Meters.{asked};
ghost use Rattle.std.specs.Prelude.{◌≡◌, ◌≤◌, length};

use crate::reply::{Reply, echo};
use commands::command::{Command, parse_command};
use lines::line::MOST_BYTES;
use meter::meter::{Meter, perform};
use meter::request::Request;
use units::unit::Bounded;

// The request of a command whose indication is at the front of the buffer. No `From`, since both types are other crates'.
fn request_of(command: Command, bytes: &[u8]) -> Request<'_>
    requires { size_of command ≤ length bytes.now }
    ensures { asked result ≡ asked_by (said_of command bytes.now) }
{
    match command {
        Command::Tariff(count) => Request::Tariff(&bytes[..count]),
        Command::AddOn(count) => Request::AddOn(&bytes[..count]),
        Command::Advance(seconds) => Request::Advance(seconds),
        Command::Start => Request::Start,
        Command::Release => Request::Release,
    }
}

/// Performs the command of a line, and tells what is written back.
pub fn perform_line<U: Bounded + Drop>(meter: Meter<U>, line: &[u8]) -> (Meter<U>, Reply)
    ensures { LinePerformed U.Unit.meaning meter line.now result.0 result.1 }
{
    let mut bytes = [0; MOST_BYTES];
    let Some(command) = parse_command(line, &mut bytes) else {
        return (meter, Reply::Unknown);
    };
    let (meter, answer) = perform(meter, request_of(command, &bytes));
    (meter, echo(command, answer))
}
