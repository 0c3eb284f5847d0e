//! Two decimal digits in a byte, four bits each, the tens above the ones.

#![tactic(auto)]

ghost use Rattle.std.specs.Prelude.{◌≡◌, ◌<◌, Some};
ghost use Rattle.bcd.specs.Digits.{digits};

/// A number of two decimal digits: 0 to 99.
#[derive(Clone, Copy, PartialEq, Eq, PartialOrd, Ord, Hash, Debug)]
pub struct TwoDigits {
    pub number: u8,
    ghost below: { number < 100 },
}

impl TwoDigits {
    ghost use Rattle.bcd.specs.Written.{WrittenIn};

    /// The number that the digits of a byte write; none where one of them is above 9.
    pub fn written_in(byte: u8) -> Option<TwoDigits>
        ensures { WrittenIn byte result }
    {
        let tens = byte / 16;
        let ones = byte % 16;
        if tens > 9 || ones > 9 {
            return None;
        }
        Some(TwoDigits {
            number: 10 * tens + ones,
        })
    }

    /// The byte that has its digits.
    pub fn digits(self) -> u8
        ensures is { result ≡ digits self.number }
        ensures back { WrittenIn result (Some self) }
    {
        16 * (self.number / 10) + self.number % 10
    }
}
