//! A wait from a new cycle on.
ghost use Rattle.bench_seconds.specs.Waits.{AddsUp, waited};
ghost use Rattle.std.specs.Prelude.{◌≡◌};

use seconds::calibration::Calibration;
use seconds::counts::Counts;
use seconds::divider::Divider;

/// The seconds that ended, and the units gone of the running one.
#[derive(Clone, Copy, PartialEq, Eq, Debug)]
pub struct Waited {
    pub counts: Counts,
    pub remainder: u16,
}

/// What a wait of so many units counts, under a control byte that stays as it is.
pub fn wait(control: u8, units: u64) -> Waited
    ensures is { result ≡ waited control units }
    ensures adds_up { AddsUp control units result }
{
    let calibration = Calibration::from_control(control);
    let mut divider = Divider::begin(calibration);
    let counts = divider.advance(calibration, units);
    Waited {
        counts,
        remainder: divider.gone,
    }
}
