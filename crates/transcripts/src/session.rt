//! Calls one after the other, from the lines of each.

use commands::opening::{Opening, UnitName, parse_opening};
use exchange::line::perform_line;
use exchange::reply::Reply;
use exchange::statement::closing_statement;
use meter::meter::Meter;
use std::io;
use units::currency::Currency;
use units::limit::PriceLimit;
use units::pulses::Pulses;
use units::unit::Bounded;

/// How far a call has come.
#[derive(Drop)]
pub enum Session {
    /// its first line is still to come
    Unopened,
    InCurrency(Meter<PriceLimit<Currency>>),
    InPulses(Meter<PriceLimit<Pulses>>),
    /// nothing more is read
    Over,
}

// A line comes with the runtime to each step, and neither is kept.
fn open(rt: &HostRuntime, line: Option<&[u8]>) -> io::Result<Session> {
    let Some(Opening { unit, second }) = line.and_then(parse_opening) else {
        println!(rt; "{}", Reply::Unknown)?;
        return Ok(Session::Over);
    };
    // each program has this match of its own, as its arms differ in a type
    Ok(match unit {
        UnitName::Currency => Session::InCurrency(Meter::open(
            PriceLimit { unit: Currency },
            second,
        )),
        UnitName::Pulses => Session::InPulses(Meter::open(PriceLimit { unit: Pulses }, second)),
    })
}

// The meter after a line; none once the call is closed. What `serve` of meterline does over a whole input: here a run's
// lines end at the next name, so a line is answered at a time.
fn answer<U: Bounded + Drop>(
    rt: &HostRuntime,
    meter: Meter<U>,
    line: Option<&[u8]>,
) -> io::Result<Option<Meter<U>>> {
    let Some(line) = line else {
        println!(rt; "{}", Reply::Unknown)?;
        return Ok(Some(meter));
    };
    let (meter, reply) = perform_line(meter, line);
    println!(rt; "{reply}")?;
    match closing_statement(&meter) {
        Some(statement) => {
            println!(rt; "{statement}")?;
            Ok(None)
        }
        None => Ok(Some(meter)),
    }
}

impl Session {
    /// The session after a line; none is a line that is too long.
    pub(crate) fn after(self, rt: &HostRuntime, line: Option<&[u8]>) -> io::Result<Session> {
        match self {
            Session::Unopened => open(rt, line),
            Session::InCurrency(meter) => {
                Ok(answer(rt, meter, line)?.map_or(Session::Over, Session::InCurrency))
            }
            Session::InPulses(meter) => {
                Ok(answer(rt, meter, line)?.map_or(Session::Over, Session::InPulses))
            }
            Session::Over => Ok(Session::Over),
        }
    }
}
