//! The time of day at which a next tariff takes over.

ghost use Rattle.std.specs.Prelude.{◌≡◌, ◌+◌, ◌*◌, ◌%◌, ◌<◌};

use std::fmt;

#[derive(Clone, Copy)]
pub struct TimeOfDay {
    hour: u16,
    minute: u16,
}

impl TimeOfDay {
    /// The time at which that many quarter hours of the day are over; 96 of them are midnight.
    pub fn after_quarters(quarters: u8) -> TimeOfDay
        ensures minutes { result.hour * 60 + result.minute ≡ 15 * quarters % 1440 }
        ensures within { result.minute < 60 }
    {
        let minutes = 15 * quarters as u16 % 1440;
        TimeOfDay {
            hour: minutes / 60,
            minute: minutes % 60,
        }
    }
}

impl fmt::Display for TimeOfDay {
    fn fmt<W: fmt::Write>(&self, f: &mut fmt::Formatter<W>) -> fmt::Result {
        let hour = self.hour;
        let minute = self.minute;
        write!(f, "{hour:02}:{minute:02}")
    }
}
