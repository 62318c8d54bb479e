//! Runs of several calls, for the gate to compare: each begins at a line with a name behind `#`, and is answered as
//! `meterline` answers it.

#![tactic(auto)]

mod session;

use lines::line::LineBuffer;
use session::Session;
use std::io::{self, Read};

const CHUNK: usize = 256;

fn print_bytes(rt: &HostRuntime, line: &[u8]) -> io::Result<()> {
    for byte in line {
        print!(rt; "{}", char::from(*byte))?;
    }
    println!(rt)
}

fn main(rt: HostRuntime) -> io::Result<()> {
    let mut line = LineBuffer::new();
    let mut session = Session::Over;
    // in place: the buffer of a `BufReader` comes from the heap
    let mut chunk = [0; CHUNK];
    // each program has this loop of its own: in a library it would owe a contract on what a reader has left. Nothing says that
    // an input ends, so the chunks are counted
    for _ in 0..u64::MAX {
        let count = rt.stdin().read(&mut chunk)?;
        if count == 0 {
            break;
        }
        for byte in &chunk[..count] {
            match *byte {
                b'\n' => {
                    session = match line.line() {
                        Some(name @ [b'#', ..]) => {
                            print_bytes(&rt, name)?;
                            Session::Unopened
                        }
                        line => session.after(&rt, line)?,
                    };
                    line.clear();
                }
                byte => line.push(byte),
            }
        }
    }
    Ok(())
}
