//! A byte buffer as a memory.

use crate::fault::MemoryFault;
use crate::storage::Memory;

/// A caller's buffer: as many addresses as it has bytes.
#[derive(Drop)]
pub struct ByteMemory<'a> {
    pub buffer: &'a mut [u8],
}

impl Memory for ByteMemory<'_> {
    type Frame = u64;

    ghost bytes = { λ m. m.buffer.now };

    // Who lends the buffer.
    ghost frame = { λ m. m.buffer.ghost_name };

    fn size(&self) -> u64 {
        self.buffer.len() as u64
    }

    fn look(&self, address: u64) -> Result<u8, MemoryFault> {
        self.buffer
            .get(address as usize)
            .copied()
            .ok_or(MemoryFault::NoSuchAddress)
    }

    fn store(&mut self, address: u64, byte: u8) -> Result<(), MemoryFault> {
        // Where nothing can be looked at, nothing can be stored.
        self.look(address)?;
        self.buffer[address as usize] = byte;
        Ok(())
    }
}
