//! Prints in words what the indications of standard input say and cost: one to a line, in hexadecimal.
//! A line that holds none is told of, and the next one is read.
//! The argument is the unit that they are read for: C for currency, P for pulses.

#![tactic(auto)]

mod amount;
mod report;
mod time;

use commands::opening::UnitName;
use lines::line::LineBuffer;
use report::Report;
use std::io::Read;
use std::{env, io};
use units::currency::Currency;
use units::limit::PriceLimit;
use units::pulses::Pulses;
use units::unit::Bounded;

const CHUNK: usize = 4096;

// Prints what each line says, in memory for one line and one chunk, both in place: the buffer of a `BufReader` comes from the
// heap.
fn inspect<U: Bounded + Drop>(rt: &HostRuntime, name: UnitName, unit: U) -> io::Result<()> {
    let report = Report { rt, unit, name };
    let mut line = LineBuffer::new();
    // counted, since lines come out of bytes, and there are none to enumerate
    let mut number = 1u64;
    let mut chunk = [0; CHUNK];
    // each program has this loop of its own: in a library it would owe a contract on what a reader has left. Nothing says that
    // an input ends, so the chunks are counted
    for _ in 0..u64::MAX {
        let count = rt.stdin().read(&mut chunk)?;
        if count == 0 {
            break;
        }
        for byte in &chunk[..count] {
            match *byte {
                b'\n' => {
                    report.print_line(number, line.line())?;
                    line.clear();
                    number = number.saturating_add(1);
                }
                byte => line.push(byte),
            }
        }
    }
    // a last line without a newline counts, unless it is empty
    match line.line() {
        Some([]) => Ok(()),
        text => report.print_line(number, text),
    }
}

// The unit whose letter is the first argument.
fn chosen_unit(rt: &HostRuntime) -> io::Result<Option<UnitName>> {
    let argument = env::args(rt)?.nth(1);
    Ok(match argument.as_deref().map(|text| text.as_bytes()) {
        Some([letter]) => UnitName::try_from(*letter).ok(),
        _ => None,
    })
}

fn main(rt: HostRuntime) -> io::Result<()> {
    let Some(name) = chosen_unit(&rt)? else {
        return println!(&rt; "inspect C reads for currency, inspect P for pulses");
    };
    // each program has this match of its own, as its arms differ in a type
    match name {
        UnitName::Currency => inspect(&rt, name, PriceLimit { unit: Currency }),
        UnitName::Pulses => inspect(&rt, name, PriceLimit { unit: Pulses }),
    }
}
