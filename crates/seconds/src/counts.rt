//! The seconds that ended.

ghost use Rattle.std.specs.Prelude.{◌≡◌, ◌^◌, ◌<◌};
ghost use Rattle.seconds.specs.Starts.{counts_of};
ghost use Rattle.seconds.specs.Units.{and_one};

use crate::calibration::Calibration;
use crate::length::Length;

/// How many seconds ended, and how many of them were shortened and lengthened.
#[derive(Clone, Copy, PartialEq, Eq, Hash, Debug)]
pub struct Counts {
    pub seconds: u64,
    pub shortened: u64,
    pub lengthened: u64,
}

impl Counts {
    pub const NONE: Counts = Counts {
        seconds: 0,
        shortened: 0,
        lengthened: 0,
    };

    /// So many seconds of one calibration, of which so many are corrected.
    pub(crate) fn of(calibration: Calibration, seconds: u64, corrected: u64) -> Counts
        ensures { result ≡ counts_of calibration seconds corrected }
    {
        let (shortened, lengthened) = if calibration.shortens {
            (corrected, 0)
        } else {
            (0, corrected)
        };
        Counts {
            seconds,
            shortened,
            lengthened,
        }
    }

    /// One second more, of this length.
    pub(crate) fn and_one(self, length: Length) -> Counts
        requires seconds { self.seconds < 2 ^ 63 }
        requires shortened { self.shortened < 2 ^ 63 }
        requires lengthened { self.lengthened < 2 ^ 63 }
        ensures { result ≡ and_one length self }
    {
        Counts {
            seconds: self.seconds + 1,
            shortened: self.shortened + u64::from(length == Length::Shortened),
            lengthened: self.lengthened + u64::from(length == Length::Lengthened),
        }
    }
}
