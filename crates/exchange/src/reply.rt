ghost use Rattle.exchange.specs.Exchanges.{echoed, letter_of, written};
ghost use Rattle.std.specs.Prelude.{Some, ◌≡◌};

use account::answer::Answer;
use commands::command::Command;
use indication::fault::Fault;
use std::fmt;

/// What is written back for a line.
// An enum and no Option: that a line is no command is itself a reply, which is written.
#[derive(Clone, Copy, PartialEq, Eq, Debug)]
pub enum Reply {
    /// the line is no command, or none that the call allows
    Unknown,
    /// the letter of the command, which was accepted or refused
    Echo(char, Result<(), Fault>),
}

impl fmt::Display for Reply {
    ghost output = { λ reply. Some (written reply) };

    fn fmt<W: fmt::Write>(&self, f: &mut fmt::Formatter<W>) -> fmt::Result {
        match *self {
            Reply::Unknown => f.write_str("? 0 0"),
            Reply::Echo(letter, Ok(())) => write!(f, "{letter} 0 0"),
            Reply::Echo(letter, Err(fault)) => {
                write!(f, "{letter} {} {}", fault.number(), fault.offset())
            }
        }
    }
}

// The letter of a command. No `From`, since both types are other crates'.
fn letter(command: Command) -> char
    ensures { result ≡ letter_of command }
{
    match command {
        Command::Tariff(_) => 'T',
        Command::AddOn(_) => 'A',
        Command::Advance(_) => 'W',
        Command::Start => 'S',
        Command::Release => 'R',
    }
}

// The reply to a command, by its answer; no conversion, as it takes both.
pub(crate) fn echo(command: Command, answer: Answer) -> Reply
    ensures { result ≡ echoed (letter_of command) answer }
{
    match answer {
        Answer::Accepted => Reply::Echo(letter(command), Ok(())),
        Answer::Refused(fault) => Reply::Echo(letter(command), Err(fault)),
        Answer::NotAllowed | Answer::Owed(_) | Answer::Total(_) | Answer::Line(_) => Reply::Unknown,
    }
}
