//! What a memory refuses.

ghost use Rattle.memory.specs.Refusals.{refusal};
ghost use Rattle.std.specs.Prelude.{◌≡◌};

/// Why a memory refused a call; a refusal changes nothing.
#[derive(Clone, Copy, PartialEq, Eq, Hash, Debug)]
pub enum MemoryFault {
    NoSuchAddress,
}

impl MemoryFault {
    /// The number of the refusal.
    pub fn number(&self) -> u8
        ensures { result ≡ refusal self.now }
    {
        match self {
            MemoryFault::NoSuchAddress => 2,
        }
    }
}
