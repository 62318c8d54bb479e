//! Meters one call for an exchange: reads a command to a line from standard input, and answers each as it comes.

#![tactic(auto)]

mod input;
mod serve;

use commands::opening::{Opening, UnitName, parse_opening};
use exchange::reply::Reply;
use input::Input;
use meter::meter::Meter;
use serve::serve;
use std::io;
use units::currency::Currency;
use units::limit::PriceLimit;
use units::pulses::Pulses;

fn main(rt: HostRuntime) -> io::Result<()> {
    let mut input = Input::new();
    let Some(line) = input.next_line(&rt)? else {
        return Ok(());
    };
    let Some(Opening { unit, second }) = line.line().and_then(parse_opening) else {
        return println!(&rt; "{}", Reply::Unknown);
    };
    // each program has this match of its own, as its arms differ in a type
    match unit {
        UnitName::Currency => {
            let unit = PriceLimit { unit: Currency };
            serve(&rt, &mut input, Meter::open(unit, second))
        }
        UnitName::Pulses => {
            let unit = PriceLimit { unit: Pulses };
            serve(&rt, &mut input, Meter::open(unit, second))
        }
    }
}
