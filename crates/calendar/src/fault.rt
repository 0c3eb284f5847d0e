//! What the calendar refuses.

ghost use Rattle.calendar.specs.Refusals.{refusal};
ghost use Rattle.std.specs.Prelude.{◌≡◌};

/// The seven locations are no date; `location` is the number of the one at fault.
#[derive(Clone, Copy, PartialEq, Eq, Hash, Debug)]
pub struct CalendarFault {
    pub location: u8,
}

impl CalendarFault {
    /// The number of the refusal.
    pub fn number(&self) -> u8
        ensures { result ≡ refusal self.now }
    {
        8
    }
}
