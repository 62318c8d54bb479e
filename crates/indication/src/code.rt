ghost use Rattle.std.specs.Prelude.{◌++◌, codes, decimal, Some};

use std::error::Error;
use std::fmt;

/// A byte that is the code of no case.
#[derive(Clone, Copy, PartialEq, Eq, Debug)]
pub struct UnknownCode(pub u8);

impl fmt::Display for UnknownCode {
    ghost output = { λ unknown. Some (codes "no case has the code " ++ decimal unknown.0) };

    fn fmt<W: fmt::Write>(&self, f: &mut fmt::Formatter<W>) -> fmt::Result {
        write!(f, "no case has the code {}", self.0)
    }
}

impl Error for UnknownCode {}
