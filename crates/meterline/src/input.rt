//! Lines of standard input, one at a time, in bounded memory.

use lines::line::LineBuffer;
use std::io::{self, Read};
use std::ops::Range;

const CHUNK: usize = 4096;

/// The bytes of standard input that are still to be taken.
// Each program goes over its bytes by itself: in a library the loop would owe a contract on what a reader has left. In place,
// and no `BufReader`: its buffer comes from the heap, and a call would end where there is none.
#[derive(Drop)]
pub(crate) struct Input {
    chunk: [u8; CHUNK],
    // the places of those that were read and not yet taken
    unread: Range<usize>,
}

impl Input {
    pub(crate) fn new() -> Input {
        Input {
            chunk: [0; CHUNK],
            unread: 0..0,
        }
    }

    // The next byte; none at the end of the input.
    fn next_byte(&mut self, rt: &HostRuntime) -> io::Result<Option<u8>> {
        if self.unread.is_empty() {
            self.unread = 0..rt.stdin().read(&mut self.chunk)?;
        }
        let place = self.unread.next();
        Ok(place.and_then(|place| self.chunk.get(place).copied()))
    }

    /// Takes the next line; none at the end of the input. A last line without a line feed counts, unless it is empty.
    pub(crate) fn next_line(&mut self, rt: &HostRuntime) -> io::Result<Option<LineBuffer>> {
        let mut line = LineBuffer::new();
        // nothing says that an input ends, so its bytes are counted
        for _ in 0..u64::MAX {
            match self.next_byte(rt)? {
                Some(b'\n') => return Ok(Some(line)),
                Some(byte) => line.push(byte),
                None => break,
            }
        }
        Ok(match line.line() {
            Some([]) => None,
            _ => Some(line),
        })
    }
}
