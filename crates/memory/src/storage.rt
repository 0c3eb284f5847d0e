//! What every memory is and does.

ghost use Rattle.std.specs.Prelude.{◌≡◌, ℕ, List, length};
ghost use Rattle.memory.specs.Storage.{looked, store_answer, stored};

use crate::fault::MemoryFault;

/// A memory is known by its bytes and by nothing else.
pub trait Memory {
    /// The bytes from address 0 on.
    ghost bytes: { Self → List ℕ };

    /// What no store changes, as who lends the bytes: by it a lender knows, after calls that know only `Memory`,
    /// that the bytes are still its own.
    type Frame;

    ghost frame: { Self → Self.Frame };

    /// How many bytes there are.
    fn size(&self) -> u64
        ensures { result ≡ length (bytes self.now) };

    /// The byte at an address.
    fn look(&self, address: u64) -> Result<u8, MemoryFault>
        ensures { result ≡ looked (bytes self.now) address };

    /// Replaces the byte at an address, and no other.
    fn store(&mut self, address: u64, byte: u8) -> Result<(), MemoryFault>
        ensures answer { result ≡ store_answer (bytes self.old) address }
        ensures after { bytes self.new ≡ stored (bytes self.old) address byte }
        ensures frame { frame self.new ≡ frame self.old };
}
