//! How long a second is.

ghost use Rattle.seconds.specs.Lengths.{units_of};
ghost use Rattle.std.specs.Prelude.{◌≡◌};

/// The length of a second, fixed when it begins.
#[derive(Clone, Copy, PartialEq, Eq, Hash, Debug)]
pub enum Length {
    Shortened,
    Plain,
    Lengthened,
}

impl Length {
    /// Its units of 1/32,768 s.
    pub fn units(self) -> u16
        ensures { result ≡ units_of self }
    {
        match self {
            Length::Shortened => 32_512,
            Length::Plain => 32_768,
            Length::Lengthened => 32_896,
        }
    }
}
