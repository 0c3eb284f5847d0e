//! The same stores into a byte buffer and into a list of words.

ghost use Rattle.both_ends.specs.Stores.{Unfinished, all_or_none, all_stored, answers};
ghost use Rattle.memory.specs.Words.{bytes_of, with_bytes};
ghost use Rattle.std.specs.Prelude.{◌≡◌, false, is_ok, IfOk, OnOk};

use crate::stores::{Answer, Store, store_all};
use memory::byte_memory::ByteMemory;
use memory::word_memory::WordMemory;
use std::alloc::{AllocError, Global};

/// What both ends answered to the same stores.
#[derive(Drop)]
pub struct Answers {
    pub buffer: Vec<Answer>,
    pub words: Vec<Answer>,
}

/// Stores into a byte buffer.
fn store_in_buffer(
    heap: Global,
    buffer: &mut [u8],
    stores: &[Store],
) -> Result<Vec<Answer>, AllocError>
    ensures answers { IfOk result (λ v. v.items ≡ answers buffer.old stores.now) }
    ensures after { buffer.new ≡ all_or_none (is_ok result) buffer.old stores.now }
{
    let mut memory = ByteMemory { buffer };
    store_all(heap, &mut memory, stores)
}

/// Stores into a list of words.
fn store_in_words(
    heap: Global,
    words: &mut [u32],
    stores: &[Store],
) -> Result<Vec<Answer>, AllocError>
    ensures answers { IfOk result (λ v. v.items ≡ answers (bytes_of words.old) stores.now) }
    ensures bytes { bytes_of words.new ≡ all_or_none (is_ok result) (bytes_of words.old) stores.now }
    ensures words { words.new ≡ with_bytes words.old (all_or_none (is_ok result) (bytes_of words.old) stores.now) }
{
    let mut memory = WordMemory { words };
    store_all(heap, &mut memory, stores)
}

/// Stores into both; of equal bytes the same stores make equal bytes. Where there is no room for the answers of the
/// words, the buffer alone has been stored into.
pub fn store_in_both(
    heap: Global,
    buffer: &mut [u8],
    words: &mut [u32],
    stores: &[Store],
) -> Result<Answers, AllocError>
    ensures answers { IfOk result (λ both. (both.buffer.items ≡ answers buffer.old stores.now) × (both.words.items ≡ answers (bytes_of words.old) stores.now)) }
    ensures buffer { OnOk result (buffer.new ≡ all_stored buffer.old stores.now) }
    ensures words { OnOk result (words.new ≡ with_bytes words.old (all_stored (bytes_of words.old) stores.now)) }
    ensures wanting { is_ok result ≡ false → Unfinished buffer.old buffer.new stores.now × (bytes_of words.new ≡ bytes_of words.old) }
    ensures same { buffer.old ≡ bytes_of words.old → OnOk result (buffer.new ≡ bytes_of words.new) }
{
    let by_buffer = store_in_buffer(heap, buffer, stores)?;
    let by_words = store_in_words(heap, words, stores)?;
    Ok(Answers {
        buffer: by_buffer,
        words: by_words,
    })
}
