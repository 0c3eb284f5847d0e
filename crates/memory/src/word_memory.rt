//! A list of 32-bit words as a memory.

ghost use Rattle.memory.specs.Storage.{if_there};
ghost use Rattle.memory.specs.Words.{Determined, Known, bytes_of, counted, uncounted};
ghost use Rattle.std.specs.Prelude.{◌≡◌, ◌/◌, slice_index};
ghost use denote.Ref.{at_last};

use crate::fault::MemoryFault;
use crate::storage::Memory;

/// How many words of a list count.
const COUNTED: usize = 131_072;

/// A caller's words: four addresses to a word, the lowest byte first.
#[derive(Drop)]
pub struct WordMemory<'a> {
    pub words: &'a mut [u32],
}

impl WordMemory<'_> {
    /// The words that count.
    #[tactic(auto, using(std::proofs::lemmas::List::take_min))]
    fn counted(&self) -> &[u32]
        ensures { result.now ≡ counted self.now.words.now }
    {
        &self.words[..COUNTED.min(self.words.len())]
    }

    /// The word that an address is in.
    fn word_at(&self, address: u64) -> Result<u32, MemoryFault>
        ensures { result ≡ if_there (bytes_of self.now.words.now) address (slice_index self.now.words.now (address / 4)) }
    {
        self.counted()
            .get((address / 4) as usize)
            .copied()
            .ok_or(MemoryFault::NoSuchAddress)
    }
}

impl<'a> Memory for WordMemory<'a> {
    type Frame = &'a mut [u32];

    ghost bytes = { λ m. bytes_of m.words.now };

    // Who lends the words, and the words past those that count.
    ghost frame = { λ m. at_last m.words (uncounted m.words.now) };

    fn size(&self) -> u64 {
        4 * self.counted().len() as u64
    }

    #[tactic(auto, using(crate::proofs::Words::byte_at))]
    fn look(&self, address: u64) -> Result<u8, MemoryFault> {
        let bytes = self.word_at(address)?.to_le_bytes();
        Ok(bytes[(address % 4) as usize])
    }

    fn store(&mut self, address: u64, byte: u8) -> Result<(), MemoryFault> {
        let mut bytes = self.word_at(address)?.to_le_bytes();
        bytes[(address % 4) as usize] = byte;
        self.words[(address / 4) as usize] = u32::from_le_bytes(bytes);
        Ok(())
    }
}

/// States that the bytes and the words past those that count are all there is to know of words.
pub fn words_known()
    ensures known { Known }
    ensures determined { Determined }
{}
