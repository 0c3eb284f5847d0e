//! What the program answers to a line.
ghost use Rattle.moveon.specs.Answers.{Carried, Answered};
ghost use Rattle.moveon.specs.Reading.{reading};

use crate::fault::LineFault;
use crate::line::{Request, parse};
use calendar::counters::Counters;
use calendar::fault::CalendarFault;

/// A clock moved on.
#[derive(Clone, Copy, PartialEq, Eq, Debug)]
pub struct Moved {
    pub before: Counters,
    pub seconds: u32,
    pub after: Counters,
}

/// Why no clock was moved on.
#[derive(Clone, Copy, PartialEq, Eq, Debug)]
pub enum NotMoved {
    NoDate(CalendarFault),
    Unreadable(LineFault),
}

/// What comes of a request.
fn carried(request: &Request) -> Result<Moved, CalendarFault>
    ensures { Carried request.now result }
{
    let before = Counters::from_locations(&request.locations)?;
    let seconds = request.seconds;
    let mut after = before;
    after.advance(seconds);
    Ok(Moved {
        before,
        seconds,
        after,
    })
}

/// The answer to a line; none where it has only blanks.
pub fn answer_to(line: &[u8]) -> Result<Option<Moved>, NotMoved>
    ensures { Answered (reading line.now) result }
{
    let Some(request) = parse(line).map_err(NotMoved::Unreadable)? else {
        return Ok(None);
    };
    let moved = carried(&request).map_err(NotMoved::NoDate)?;
    Ok(Some(moved))
}
