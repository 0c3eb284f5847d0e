//! The lengths of months, and the date that follows a date.

ghost use Rattle.dates.specs.Dates.{date_after, month_length};
ghost use Rattle.dates.specs.Of.{date_of};
ghost use Rattle.std.specs.Prelude.{◌≡◌};

use crate::date::CalendarDate;

/// How many days a month has, in a year from 00 to 99; 31 for a number that is no month.
pub fn month_length(year: u8, month: u8) -> u8
    ensures { result ≡ month_length year month }
{
    match month {
        2 if year.is_multiple_of(4) => 29,
        2 => 28,
        4 | 6 | 9 | 11 => 30,
        _ => 31,
    }
}

impl CalendarDate {
    /// The date of the day that follows.
    pub fn following(self) -> CalendarDate
        ensures { date_of result ≡ date_after (date_of self) }
    {
        let CalendarDate { date, month, year } = self;
        if date < month_length(year, month) {
            return CalendarDate {
                date: date + 1,
                month,
                year,
            };
        }
        if month < 12 {
            return CalendarDate {
                date: 1,
                month: month + 1,
                year,
            };
        }
        CalendarDate {
            date: 1,
            month: 1,
            year: if year < 99 { year + 1 } else { 0 },
        }
    }
}
