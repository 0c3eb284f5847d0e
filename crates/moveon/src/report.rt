//! The words in which the program answers.
ghost use Rattle.std.specs.Prelude.{◌≡◌};
ghost use Rattle.moveon.specs.Names.{month_named, location_named};

use crate::answer::{Moved, NotMoved};
use calendar::counters::Counters;
use std::fmt;

/// The answer to the line of this number, counted from 1.
#[derive(Clone, Copy)]
pub struct Report {
    pub number: u64,
    pub answer: Result<Moved, NotMoved>,
}

/// A time as the report shows it.
#[derive(Clone, Copy)]
struct Moment<'a>(&'a Counters);

fn month_name(month: u8) -> &'static str
    ensures { result.now ≡ month_named month }
{
    match month {
        1 => "Jan",
        2 => "Feb",
        3 => "Mar",
        4 => "Apr",
        5 => "May",
        6 => "Jun",
        7 => "Jul",
        8 => "Aug",
        9 => "Sep",
        10 => "Oct",
        11 => "Nov",
        _ => "Dec",
    }
}

fn location_name(location: u8) -> &'static str
    ensures { result.now ≡ location_named location }
{
    match location {
        9 => "seconds",
        10 => "minutes",
        11 => "hours",
        12 => "day",
        13 => "date",
        14 => "month",
        _ => "year",
    }
}

impl fmt::Display for Moment<'_> {
    fn fmt<W: fmt::Write>(&self, f: &mut fmt::Formatter<W>) -> fmt::Result {
        let time = self.0;
        let (second, minute, hour, day) = (time.second, time.minute, time.hour, time.day);
        let (date, year) = (time.date.date, time.date.year);
        let month = month_name(time.date.month);
        write!(
            f,
            "{date:02} {month} {year:02} {hour:02}:{minute:02}:{second:02}, day {day}"
        )
    }
}

impl fmt::Display for Report {
    fn fmt<W: fmt::Write>(&self, f: &mut fmt::Formatter<W>) -> fmt::Result {
        let number = self.number;
        match &self.answer {
            Ok(moved) => write!(
                f,
                "{}, + {} s -> {}",
                Moment(&moved.before),
                moved.seconds,
                Moment(&moved.after)
            ),
            Err(NotMoved::NoDate(fault)) => {
                let refusal = fault.number();
                let location = fault.location;
                let name = location_name(location);
                write!(
                    f,
                    "line {number}: refused with {refusal}: location {location} ({name}) makes no date"
                )
            }
            Err(NotMoved::Unreadable(fault)) => write!(f, "line {number}, {fault}"),
        }
    }
}
