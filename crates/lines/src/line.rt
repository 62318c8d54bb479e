//! One line at a time, collected byte by byte.

ghost use Rattle.lines.specs.Line.{seen, grown};
ghost use Rattle.std.specs.Option.{option_map};
ghost use Rattle.std.specs.Prelude.{◌≡◌, ◌≤◌, [], Some, length, IfSome};

use arrayvec::ArrayVec;

/// The most bytes that a line may have.
pub const LIMIT: usize = 400;

/// The most bytes that the digits of a line write.
pub const MOST_BYTES: usize = LIMIT / 2;

/// One line, as far as it was read.
#[derive(Drop)]
pub struct LineBuffer {
    // The line's bytes; none where they are more than `LIMIT`.
    bytes: Option<ArrayVec<u8, LIMIT>>,
}

impl LineBuffer {
    /// An empty line.
    pub fn new() -> LineBuffer
        ensures { seen result ≡ Some [] }
    {
        LineBuffer {
            bytes: Some(ArrayVec::new()),
        }
    }

    /// Adds one byte. A byte past the limit is not kept, and makes the line overlong.
    pub fn push(&mut self, byte: u8)
        ensures { seen self.new ≡ grown (seen self.old) byte }
    {
        if let Some(bytes) = &mut self.bytes {
            if bytes.try_push(byte).is_err() {
                self.bytes = None;
            }
        }
    }

    /// The line's bytes, or `None` where it is overlong.
    pub fn line(&self) -> Option<&[u8]>
        ensures line { option_map (λ x. x.now) result ≡ seen self.now }
        ensures short { IfSome result (λ x. length x.now ≤ 400) }
    {
        self.bytes.as_ref().map(|bytes| bytes.as_slice())
    }

    /// Makes it ready for the next line.
    pub fn clear(&mut self)
        ensures { seen self.new ≡ Some [] }
    {
        // the bytes that the line has, and not all that it may have
        match &mut self.bytes {
            Some(bytes) => bytes.clear(),
            None => *self = LineBuffer::new(),
        }
    }
}
