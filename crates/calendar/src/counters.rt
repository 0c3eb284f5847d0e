//! The counters behind the locations.

ghost use Rattle.calendar.specs.Time.{Exists};
ghost use Rattle.dates.specs.Of.{date_of};

use dates::date::CalendarDate;

/// The time that the clock counts; it always exists.
#[derive(Clone, Copy, PartialEq, Eq, Hash, Debug)]
pub struct Counters {
    pub second: u8,
    pub minute: u8,
    pub hour: u8,
    pub day: u8,
    pub date: CalendarDate,
    ghost exists: { Exists (record { second = second; minute = minute; hour = hour; day = day; date = date_of date }) },
}
