ghost use Rattle.record.specs.Operators.{due_for};
ghost use Rattle.record.specs.Quarters.{due_at};
ghost use Rattle.std.specs.Prelude.{◌≡◌};

use crate::call::{Call, DAY};
use tariffs::tariff::Tariff;

impl Call {
    // When a next tariff takes over.
    pub(crate) fn due_for(&self, quarter: u8, next: Option<Tariff>) -> Option<u64>
        ensures { result ≡ due_for self.now.opening quarter self.now.clock next }
    {
        next.and(Some(self.due_at(quarter)))
    }

    // The first clock value, from now on, at which the quarter begins.
    fn due_at(&self, quarter: u8) -> u64
        ensures { result ≡ due_at self.now.opening quarter self.now.clock }
    {
        let day = DAY as u64;
        let clock = self.clock as u64;
        let second = (self.opening as u64 + clock) % day;
        let begins = 900 * quarter as u64 % day;
        clock + (begins + day - second) % day
    }
}
