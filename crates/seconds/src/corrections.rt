//! Which seconds a calibration corrects, and how many: the one file that knows the rule.

ghost use Rattle.std.specs.Prelude.{◌≡◌, ◌*◌, ◌≤◌};
ghost use Rattle.seconds.specs.Corrections.{corrects, corrected, counted};

use crate::calibration::Calibration;
use crate::cycle::CYCLE;

/// The seconds of a minute; one of them at most is corrected.
const MINUTE: u16 = 60;

impl Calibration {
    /// How many seconds of each cycle are corrected.
    fn corrections(self) -> u16
        ensures { result ≡ 2 * self.magnitude }
    {
        2 * u16::from(self.magnitude)
    }

    /// Whether the second at this index of the cycle is corrected.
    pub(crate) fn corrects(self, index: u16) -> bool
        ensures { result ≡ corrects self index }
    {
        index.is_multiple_of(MINUTE) && index / MINUTE < self.corrections()
    }

    /// How many of a cycle's seconds before this index are corrected.
    pub(crate) fn corrected_before(self, index: u16) -> u16
        requires { index ≤ 3840 }
        ensures { result ≡ corrected self index }
    {
        self.corrections().min((index + MINUTE - 1) / MINUTE)
    }

    /// How many of the first so many seconds after a new cycle are corrected, while the calibration stays as it is.
    pub fn corrected(self, seconds: u64) -> u64
        ensures is { result ≡ corrected self seconds }
        ensures counted { result ≡ counted self seconds }
    {
        let cycles = seconds / u64::from(CYCLE);
        let index = (seconds % u64::from(CYCLE)) as u16;
        cycles * u64::from(self.corrections()) + u64::from(self.corrected_before(index))
    }
}
