//! The alarm: its four bytes, and the times that they match.

ghost use Rattle.std.specs.Prelude.{◌≡◌, ◌+◌, ◌≤◌, true, bit_and};
ghost use Rattle.bcd.specs.Written.{WrittenIn};
ghost use Rattle.calendar.specs.Alarm.{Matchable, heard, hearable, matchable, matches};
ghost use Rattle.calendar.specs.Earliest.{Earliest, alarm_bytes};
ghost use Rattle.calendar.specs.Locations.{high, mask};
ghost use Rattle.calendar.specs.Of.{time_of};

use crate::counters::Counters;
use crate::location::Location;
use bcd::TwoDigits;

/// The alarm's bytes for the second, the minute, the hour and the date.
#[derive(Clone, Copy, PartialEq, Eq, Hash, Debug)]
pub struct Alarm {
    pub bytes: [u8; 4],
}

/// The alarm's byte for one location.
#[derive(Clone, Copy)]
pub(crate) struct AlarmByte {
    location: Location,
    byte: u8,
}

/// The alarm's bytes, each with its location.
#[derive(Clone, Copy)]
pub(crate) struct AlarmBytes {
    pub(crate) second: AlarmByte,
    pub(crate) minute: AlarmByte,
    pub(crate) hour: AlarmByte,
    pub(crate) date: AlarmByte,
}

/// From this byte on bit 7 is set, and an alarm byte hears every number.
const IGNORE: u8 = 0x80;

impl AlarmByte {
    /// The number that its digits write.
    fn wanted(self) -> Option<TwoDigits>
        ensures { WrittenIn (bit_and self.byte (mask self.location)) result }
    {
        TwoDigits::written_in(self.byte & self.location.mask())
    }

    /// Whether it hears this number of its location.
    pub(crate) fn hears(self, number: u8) -> bool
        requires { number ≤ 99 }
        ensures { result ≡ heard self.location self.byte number }
    {
        self.byte >= IGNORE || self.wanted() == Some(TwoDigits { number })
    }

    /// The first number of its location, from `from` on, that it hears.
    pub(crate) fn first_heard(self, from: u32) -> Option<u32>
        ensures { Earliest (heard self.location self.byte) from (high self.location + 1) result }
    {
        let first = if self.byte >= IGNORE {
            from
        } else {
            u32::from(self.wanted()?.number)
        };
        (from..=u32::from(self.location.high()))
            .contains(&first)
            .then_some(first)
    }

    /// Whether it hears any number of its location.
    fn can_hear(self) -> bool
        ensures { result ≡ hearable self.location self.byte }
    {
        self.first_heard(u32::from(self.location.low())).is_some()
    }
}

impl Alarm {
    /// Which byte is for which location.
    pub(crate) fn by_location(&self) -> AlarmBytes
        ensures { result ≡ alarm_bytes self.now.bytes }
    {
        let [second, minute, hour, date] = self.bytes;
        let at = |location, byte| AlarmByte { location, byte };
        AlarmBytes {
            second: at(Location::Seconds, second),
            minute: at(Location::Minutes, minute),
            hour: at(Location::Hours, hour),
            date: at(Location::Date, date),
        }
    }

    /// Whether the counters match now.
    pub fn matches(&self, counters: &Counters) -> bool
        ensures { result ≡ matches self.now.bytes (time_of counters.now) }
    {
        let alarm = self.by_location();
        alarm.date.hears(counters.date.date)
            && alarm.hour.hears(counters.hour)
            && alarm.minute.hears(counters.minute)
            && alarm.second.hears(counters.second)
    }

    /// Whether any time at all matches.
    pub fn can_match(&self) -> bool
        ensures is { result ≡ matchable self.now.bytes }
        ensures some { result ≡ true → Matchable self.now.bytes }
        ensures all { Matchable self.now.bytes → result ≡ true }
    {
        let alarm = self.by_location();
        alarm.date.can_hear()
            && alarm.hour.can_hear()
            && alarm.minute.can_hear()
            && alarm.second.can_hear()
    }
}
