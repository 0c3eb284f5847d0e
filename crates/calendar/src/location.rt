//! The seven clock locations: their registers, their digits and the range of their numbers.

ghost use Rattle.std.specs.Prelude.{◌≡◌, ◌≤◌};
ghost use Rattle.calendar.specs.Locations.{high, joined, low, mask, number};
ghost use Rattle.calendar.specs.Reading.{Counts};

use crate::fault::CalendarFault;
use bcd::TwoDigits;

/// A clock location, with the number of its register; the day is that of the week, the date that of the month.
#[derive(Clone, Copy, PartialEq, Eq, PartialOrd, Ord, Hash, Debug)]
pub enum Location {
    Seconds = 9,
    Minutes = 10,
    Hours = 11,
    Day = 12,
    Date = 13,
    Month = 14,
    Year = 15,
}

/// All of them, the lowest register first.
pub const LOCATIONS: [Location; 7] = [
    Location::Seconds,
    Location::Minutes,
    Location::Hours,
    Location::Day,
    Location::Date,
    Location::Month,
    Location::Year,
];

impl Location {
    /// The number of its register.
    pub fn number(self) -> u8
        ensures { result ≡ number self }
    {
        self as u8
    }

    /// The bits that hold its digits; the others are spare.
    pub fn mask(self) -> u8
        ensures { result ≡ mask self }
    {
        match self {
            Location::Seconds | Location::Minutes => 0x7f,
            Location::Hours | Location::Date => 0x3f,
            Location::Day => 0x07,
            Location::Month => 0x1f,
            Location::Year => 0xff,
        }
    }

    /// The lowest number that it counts.
    pub fn low(self) -> u8
        ensures { result ≡ low self }
    {
        match self {
            Location::Day | Location::Date | Location::Month => 1,
            Location::Seconds | Location::Minutes | Location::Hours | Location::Year => 0,
        }
    }

    /// The highest number that it counts.
    pub fn high(self) -> u8
        ensures { result ≡ high self }
    {
        match self {
            Location::Seconds | Location::Minutes => 59,
            Location::Hours => 23,
            Location::Day => 7,
            Location::Date => 31,
            Location::Month => 12,
            Location::Year => 99,
        }
    }

    /// The number that the location holds, where its digits are digits and their number is in its range.
    pub(crate) fn value(self, byte: u8) -> Result<u8, CalendarFault>
        ensures { Counts self byte result }
    {
        let fault = CalendarFault {
            location: self.number(),
        };
        let number = TwoDigits::written_in(byte & self.mask())
            .ok_or(fault)?
            .number;
        if (self.low()..=self.high()).contains(&number) {
            Ok(number)
        } else {
            Err(fault)
        }
    }

    /// The byte that shows a number: its digits, joined with the spare bits of `spare`.
    pub(crate) fn shown(self, number: u8, spare: u8) -> u8
        requires { number ≤ 99 }
        ensures { result ≡ joined self number spare }
    {
        TwoDigits { number }.digits() | (spare & !self.mask())
    }
}
