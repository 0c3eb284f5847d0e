//! The divider: the second that runs, and where units lead it.

ghost use Rattle.bcd.specs.Digits.{digits};
ghost use Rattle.std.specs.Prelude.{◌≡◌, ℕ, ◌<◌, ◌≤◌};
ghost use Rattle.seconds.specs.Hundredths.{hundredths};
ghost use Rattle.seconds.specs.Lengths.{units_of};

use crate::calibration::Calibration;
use crate::counts::Counts;
use crate::length::Length;
use bcd::TwoDigits;

/// The running second: `gone` of its units have passed, and `index` is its place in the cycle of 3,840 seconds.
#[derive(Clone, Copy, PartialEq, Eq, Hash, Debug)]
pub struct Divider {
    pub gone: u16,
    pub index: u16,
    pub length: Length,
    ghost within: { gone < units_of length },
    ghost placed: { index < 3840 },
}

impl Divider {
    ghost use Rattle.seconds.specs.Laws.{Accounted, CorrectedByFormula, Fits32Bits, Numbered, Parted};
    ghost use Rattle.seconds.specs.Lengths.{length_at};
    ghost use Rattle.seconds.specs.Of.{run_of, running_of};
    ghost use Rattle.seconds.specs.Units.{begun, further, starting, unit};
    ghost use Rattle.steps.specs.Iterate.{iterate};

    /// The second at this index of the cycle, when so many of its units have gone.
    pub(crate) fn at(calibration: Calibration, index: u16, gone: u64) -> Divider
        requires placed { index < 3840 }
        requires within { gone < units_of (length_at calibration index) }
        ensures { running_of result ≡ further gone (starting calibration index) }
    {
        Divider {
            gone: gone as u16,
            index,
            length: calibration.length_at(index),
        }
    }

    /// Unit 0 of a new cycle.
    pub fn begin(calibration: Calibration) -> Divider
        ensures { running_of result ≡ starting calibration 0 }
    {
        Divider::at(calibration, 0, 0)
    }

    /// Lets so many units go by, and counts the seconds that end in them.
    pub fn advance(&mut self, calibration: Calibration, units: u64) -> Counts
        ensures runs { run_of self.new result ≡ iterate (unit calibration) units (begun (running_of self.old)) }
        ensures accounted { Accounted units (running_of self.old) (run_of self.new result) }
        ensures parted { Parted result }
        ensures fits { Fits32Bits units result }
        ensures corrected { (n : ℕ) → Numbered calibration n (running_of self.old) → CorrectedByFormula calibration n (run_of self.new result) }
    {
        let left = u64::from(self.length.units() - self.gone);
        if units < left {
            self.gone += units as u16;
            return Counts::NONE;
        }
        let ended = *self;
        let first = ended.index + 1;
        let moment = calibration.moment_after(ended, units - left);
        *self = moment.running;
        let seconds = moment.number - u64::from(first);
        let corrected = calibration.corrected(moment.number)
            - u64::from(calibration.corrected_before(first));
        Counts::of(calibration, seconds, corrected).and_one(ended.length)
    }

    /// The hundredths gone of the running second: 0 to 99.
    pub fn hundredths(&self) -> u8
        ensures is { result ≡ hundredths self.now.gone }
        ensures most { result ≤ 99 }
    {
        (u32::from(self.gone) * 100 / u32::from(Length::Plain.units())).min(99) as u8
    }

    /// Their two decimal digits, four bits each.
    pub fn hundredths_digits(&self) -> u8
        ensures { result ≡ digits (hundredths self.now.gone) }
    {
        let hundredths = TwoDigits {
            number: self.hundredths(),
        };
        hundredths.digits()
    }
}
