//! The counters from the seven locations, and back.

ghost use Rattle.calendar.specs.Of.{time_of};
ghost use Rattle.calendar.specs.Reading.{digits_of, locations_of, read_as, reading};
ghost use Rattle.std.specs.Prelude.{◌≡◌, IfOk, Ok};

use crate::counters::Counters;
use crate::fault::CalendarFault;
use crate::location::Location;
use dates::date::CalendarDate;
use dates::months::month_length;

impl Counters {
    /// The time that the bytes of registers 9 to 15 are, or the location at fault.
    pub fn from_locations(bytes: &[u8; 7]) -> Result<Counters, CalendarFault>
        ensures is { read_as result ≡ reading bytes.now }
        ensures again { IfOk result (λ c. locations_of (time_of c) bytes.now ≡ bytes.now) }
    {
        let [second, minute, hour, day, date, month, year] = *bytes;
        let second = Location::Seconds.value(second)?;
        let minute = Location::Minutes.value(minute)?;
        let hour = Location::Hours.value(hour)?;
        let day = Location::Day.value(day)?;
        let date = Location::Date.value(date)?;
        let month = Location::Month.value(month)?;
        let year = Location::Year.value(year)?;
        if date > month_length(year, month) {
            return Err(CalendarFault {
                location: Location::Date.number(),
            });
        }
        let date = CalendarDate { date, month, year };
        Ok(Counters {
            second,
            minute,
            hour,
            day,
            date,
        })
    }

    /// The bytes of registers 9 to 15: the digits of the counters, joined with the spare bits of `spare`.
    pub fn joined(&self, spare: &[u8; 7]) -> [u8; 7]
        ensures is { result ≡ locations_of (time_of self.now) spare.now }
        ensures back { reading result ≡ Ok (time_of self.now) }
    {
        let [second, minute, hour, day, date, month, year] = *spare;
        [
            Location::Seconds.shown(self.second, second),
            Location::Minutes.shown(self.minute, minute),
            Location::Hours.shown(self.hour, hour),
            Location::Day.shown(self.day, day),
            Location::Date.shown(self.date.date, date),
            Location::Month.shown(self.date.month, month),
            Location::Year.shown(self.date.year, year),
        ]
    }

    /// The digits of the counters in the bytes of registers 9 to 15, with no spare bit set.
    pub fn digits(&self) -> [u8; 7]
        ensures is { result ≡ digits_of (time_of self.now) }
        ensures back { reading result ≡ Ok (time_of self.now) }
    {
        self.joined(&[0; 7])
    }
}
