//! The date some days later, by counting days instead of going through them.

ghost use Rattle.std.specs.Prelude.{◌≡◌, ◌<◌};
ghost use Rattle.dates.specs.Dates.{date_after};
ghost use Rattle.dates.specs.Numbering.{date_at, days_before, number};
ghost use Rattle.dates.specs.Of.{date_of};
ghost use Rattle.steps.specs.Iterate.{iterate};

use crate::date::CalendarDate;

/// The days of the hundred years from 1 March 00 to 29 February 00.
const CENTURY: u32 = 36_525;

/// The days before a month in a year that begins in March, March being 0.
fn days_before(month: u32) -> u32
    requires { month < 12 }
    ensures { result ≡ days_before month }
{
    (153 * month + 2) / 5
}

impl CalendarDate {
    /// The number of the day, counted from 1 March 00 on.
    #[tactic(auto, unfolding(crate::specs::Numbering::number))]
    fn number(self) -> u32
        ensures is { result ≡ number (date_of self) }
        ensures below { result < 36525 }
    {
        let date = u32::from(self.date);
        let month = u32::from(self.month);
        let year = u32::from(self.year);
        if month < 3 {
            1461 * ((year + 99) % 100) / 4 + days_before(month + 9) + (date - 1)
        } else {
            1461 * year / 4 + days_before(month - 3) + (date - 1)
        }
    }

    /// The date of the day of that number.
    #[tactic(auto, unfolding(crate::specs::Numbering::date_at))]
    fn at(number: u32) -> CalendarDate
        requires { number < 36525 }
        ensures { date_of result ≡ date_at number }
    {
        let year = (4 * number + 3) / 1461;
        let day = number - 1461 * year / 4;
        let month = (5 * day + 2) / 153;
        let date = (day - days_before(month) + 1) as u8;
        if month < 10 {
            return CalendarDate {
                date,
                month: (month + 3) as u8,
                year: year as u8,
            };
        }
        CalendarDate {
            date,
            month: (month - 9) as u8,
            year: ((year + 1) % 100) as u8,
        }
    }

    /// The date so many days later.
    pub fn later(self, days: u32) -> CalendarDate
        ensures { date_of result ≡ iterate date_after days (date_of self) }
    {
        CalendarDate::at((self.number() + days % CENTURY) % CENTURY)
    }
}
