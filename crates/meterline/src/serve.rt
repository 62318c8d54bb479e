//! A call, from its opening to its statement.

use crate::input::Input;
use exchange::line::perform_line;
use exchange::reply::Reply;
use exchange::statement::closing_statement;
use meter::meter::Meter;
use std::io;
use units::unit::Bounded;

/// Answers each line of the input, until the call is released or the input ends.
pub(crate) fn serve<U: Bounded + Drop>(
    rt: &HostRuntime,
    input: &mut Input,
    mut meter: Meter<U>,
) -> io::Result<()> {
    // nothing says that an input ends, so its lines are counted: an iterator of lines would owe a proof of how much of the
    // input each takes
    for _ in 0..u64::MAX {
        let Some(line) = input.next_line(rt)? else {
            break;
        };
        let Some(line) = line.line() else {
            println!(rt; "{}", Reply::Unknown)?;
            continue;
        };
        let (next, reply) = perform_line(meter, line);
        meter = next;
        println!(rt; "{reply}")?;
        if let Some(statement) = closing_statement(&meter) {
            return println!(rt; "{statement}");
        }
    }
    Ok(())
}
