//! The seconds of a cycle, and when each of them begins.

ghost use Rattle.std.specs.Prelude.{◌≡◌, ◌+◌, ◌*◌, ◌^◌, ◌<◌, ◌≤◌};
ghost use Rattle.seconds.specs.Of.{running_of};
ghost use Rattle.seconds.specs.Starts.{RunsAt, start};

use crate::calibration::Calibration;
use crate::divider::Divider;
use crate::length::Length;

/// The seconds of a cycle.
pub const CYCLE: u16 = 3840;

/// A moment: the second that runs, and its number, counted from 0 at a new cycle.
#[derive(Clone, Copy)]
pub(crate) struct Moment {
    pub(crate) number: u64,
    pub(crate) running: Divider,
}

impl Calibration {
    /// The units from the start of a cycle to the start of its second at this index; to its end, at 3,840.
    fn start(self, index: u16) -> u64
        requires { index ≤ 3840 }
        ensures { result ≡ start self index }
    {
        let corrected = self.corrected_before(index);
        u64::from(index - corrected) * u64::from(Length::Plain.units())
            + u64::from(corrected) * u64::from(self.correction().units())
    }

    /// The second of a cycle that runs when so many of its units have gone.
    fn running_at(self, within: u64) -> Divider
        requires { within < start self 3840 }
        ensures { RunsAt self within result.index (running_of result) }
    {
        // The corrections of a whole cycle come to less than a second, so it is this one or the one before.
        let latest = (within / u64::from(Length::Plain.units())) as u16 + u16::from(self.shortens);
        let begun = self.start(latest);
        if begun <= within {
            Divider::at(self, latest, within - begun)
        } else {
            let before = latest - 1;
            Divider::at(self, before, within - self.start(before))
        }
    }

    /// The moment after so many whole cycles and so many units of the next.
    fn moment_in(self, cycles: u64, within: u64) -> Moment
        requires few { cycles < 2 ^ 48 }
        requires inside { within < start self 3840 }
        ensures { RunsAt self (cycles * start self 3840 + within) result.number (running_of result.running) }
    {
        let running = self.running_at(within);
        Moment {
            number: cycles * u64::from(CYCLE) + u64::from(running.index),
            running,
        }
    }

    /// Where so many units lead from the end of this second of a cycle.
    pub(crate) fn moment_after(self, ended: Divider, units: u64) -> Moment
        ensures { RunsAt self (start self (ended.index + 1) + units) result.number (running_of result.running) }
    {
        let cycle = self.start(CYCLE);
        let cycles = units / cycle;
        let within = self.start(ended.index + 1) + units % cycle;
        if within < cycle {
            self.moment_in(cycles, within)
        } else {
            self.moment_in(cycles + 1, within - cycle)
        }
    }
}
