//! A date that the calendar has.

ghost use Rattle.dates.specs.Dates.{Dated};

/// The counters of date, month and year; together they always are a date that exists.
#[derive(Clone, Copy, PartialEq, Eq, Hash, Debug)]
pub struct CalendarDate {
    pub date: u8,
    pub month: u8,
    pub year: u8,
    ghost exists: { Dated (record { date = date; month = month; year = year }) },
}
