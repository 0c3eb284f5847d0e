//! The first later match: found by arithmetic inside a day, and day by day.

ghost use Rattle.std.specs.Prelude.{◌≡◌, ℕ, ◌+◌, ◌*◌, ◌<◌, ◌≤◌, Bool};
ghost use Rattle.calendar.specs.Alarm.{Answers, heard};
ghost use Rattle.calendar.specs.Earliest.{Earliest, FindsFirst, in_day, in_hour, on_date, parted};
ghost use Rattle.calendar.specs.Locations.{high};
ghost use Rattle.calendar.specs.Of.{time_of};

use crate::alarm::{Alarm, AlarmByte, AlarmBytes};
use crate::counters::Counters;
use crate::moving::{DAY, HOUR, MINUTE};
use dates::date::CalendarDate;

/// The first number from `from` on whose quotient by `width` the byte hears and whose remainder passes a test;
/// `first_within` answers with the first remainder, from a number on, that does.
fn first_parted<F: Fn(u32) -> Option<u32>>(
    outer: AlarmByte,
    width: u32,
    first_within: F,
    from: u32,
) -> Option<u32>
    requires width { 1 ≤ width × width ≤ 3600 }
    requires callable { F.IsAlwaysCallable first_within }
    requires finds { (test : ℕ → Bool) × FindsFirst (F.post first_within) test width }
    ensures { (test : ℕ → Bool) → FindsFirst (F.post first_within) test width → Earliest (parted width (heard outer.location outer.byte) test) from ((high outer.location + 1) * width) result }
{
    let first = outer.first_heard(from / width)?;
    let start = from.saturating_sub(first * width);
    if let Some(rest) = first_within(start) {
        return Some(first * width + rest);
    }
    let next = outer.first_heard(first + 1)?;
    let rest = first_within(0)?;
    Some(next * width + rest)
}

impl Alarm {
    /// The first matching second of an hour, from `from` on.
    fn first_in_hour(&self, from: u32) -> Option<u32>
        ensures { Earliest (in_hour self.now.bytes) from 3600 result }
    {
        let AlarmBytes { second, minute, .. } = self.by_location();
        first_parted(minute, MINUTE, |start| second.first_heard(start), from)
    }

    /// The first matching second of a day, from `from` on.
    fn first_in_day(&self, from: u32) -> Option<u32>
        ensures { Earliest (in_day self.now.bytes) from 86400 result }
    {
        let hour = self.by_location().hour;
        first_parted(hour, HOUR, |start| self.first_in_hour(start), from)
    }

    /// The first matching second of a day of this date, from `from` on.
    fn first_on(&self, date: CalendarDate, from: u32) -> Option<u32>
        ensures { Earliest (on_date self.now.bytes date.date) from 86400 result }
    {
        if !self.by_location().date.hears(date.date) {
            return None;
        }
        self.first_in_day(from)
    }

    /// The seconds from the counters to the first later match, or nothing where no instant matches.
    pub fn first_match(&self, counters: &Counters) -> Option<u32>
        ensures { Answers self.now.bytes (time_of counters.now) result }
    {
        if !self.can_match() {
            return None;
        }
        let elapsed = counters.second_of_day();
        let mut from = elapsed + 1;
        let mut date = counters.date;
        for day in 0..62 {
            if let Some(second) = self.first_on(date, from) {
                return Some(DAY * day + second - elapsed);
            }
            from = 0;
            date = date.following();
        }
        None
    }
}
