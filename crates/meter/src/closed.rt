//! A call that was released.

ghost use Rattle.inquiry.specs.Inquiries.{line_in, total_of};
ghost use Rattle.std.specs.Prelude.{◌≡◌};

use crate::metered::{Metered, Released};
use inquiry::statement;
use record::statement::StatementLine;
use units::unit::Bounded;

/// A call that was released.
pub type Closed<U> = Metered<Released, U>;

impl<U: Bounded> Closed<U> {
    /// What all networks are owed together.
    pub fn total(&self) -> u64
        ensures { result ≡ total_of self.now.call.operators }
    {
        statement::total(&self.call)
    }

    /// Line k of the statement, from 0 on, in order of first acceptance; none past the last.
    pub fn line(&self, k: usize) -> Option<StatementLine>
        ensures { result ≡ line_in k self.now.call.operators }
    {
        statement::line(&self.call, k)
    }
}
