//! How the clock's rate is corrected.

ghost use Rattle.std.specs.Prelude.{◌≡◌, ◌<◌};

use crate::length::Length;

/// How many seconds are corrected, and which way: twice `magnitude` seconds of each cycle, shortened or lengthened.
#[derive(Clone, Copy, PartialEq, Eq, Hash, Debug)]
pub struct Calibration {
    pub shortens: bool,
    pub magnitude: u8,
    ghost small: { magnitude < 32 },
}

impl Calibration {
    ghost use Rattle.seconds.specs.Calibrations.{calibration_in};
    ghost use Rattle.seconds.specs.Lengths.{correction, length_at};

    /// The sign in bit 5, where 1 shortens, and the magnitude in bits 4 to 0; bits 7 and 6 play no part.
    pub fn from_control(control: u8) -> Calibration
        ensures { result ≡ calibration_in control }
    {
        Calibration {
            shortens: control & 0x20 != 0,
            magnitude: control & 0x1f,
        }
    }

    /// The length of a corrected second.
    pub(crate) fn correction(self) -> Length
        ensures { result ≡ correction self }
    {
        if self.shortens {
            Length::Shortened
        } else {
            Length::Lengthened
        }
    }

    /// The length of the second at this index of the cycle.
    pub(crate) fn length_at(self, index: u16) -> Length
        ensures { result ≡ length_at self index }
    {
        if self.corrects(index) {
            self.correction()
        } else {
            Length::Plain
        }
    }
}
