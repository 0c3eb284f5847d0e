//! The counters one second on, and many seconds on.

ghost use Rattle.std.specs.Prelude.{◌≡◌, ◌<◌};
ghost use Rattle.calendar.specs.Moments.{second_of_day};
ghost use Rattle.calendar.specs.Of.{time_of};
ghost use Rattle.calendar.specs.Time.{next};
ghost use Rattle.steps.specs.Iterate.{iterate};

use crate::counters::Counters;

/// The seconds of a minute.
pub(crate) const MINUTE: u32 = 60;

/// The seconds of an hour.
pub(crate) const HOUR: u32 = 60 * MINUTE;

/// The seconds of a day.
pub(crate) const DAY: u32 = 24 * HOUR;

impl Counters {
    /// One second on.
    pub fn tick(&mut self)
        ensures { time_of self.new ≡ next (time_of self.old) }
    {
        if self.second < 59 {
            self.second += 1;
            return;
        }
        self.second = 0;
        if self.minute < 59 {
            self.minute += 1;
            return;
        }
        self.minute = 0;
        if self.hour < 23 {
            self.hour += 1;
            return;
        }
        self.hour = 0;
        self.day = if self.day < 7 { self.day + 1 } else { 1 };
        self.date = self.date.following();
    }

    /// Seconds since midnight.
    pub(crate) fn second_of_day(&self) -> u32
        ensures is { result ≡ second_of_day (time_of self.now) }
        ensures below { result < 86400 }
    {
        HOUR * u32::from(self.hour) + MINUTE * u32::from(self.minute) + u32::from(self.second)
    }

    /// So many seconds on, in one step.
    pub fn advance(&mut self, seconds: u32)
        ensures { time_of self.new ≡ iterate next seconds (time_of self.old) }
    {
        let seconds = u64::from(self.second_of_day()) + u64::from(seconds);
        let day = u64::from(DAY);
        let days = (seconds / day) as u32;
        let rest = (seconds % day) as u32;
        self.second = (rest % HOUR % MINUTE) as u8;
        self.minute = (rest % HOUR / MINUTE) as u8;
        self.hour = (rest / HOUR) as u8;
        self.day = 1 + ((u32::from(self.day) - 1 + days) % 7) as u8;
        self.date = self.date.later(days);
    }
}
