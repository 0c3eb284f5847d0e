//! Stores into a memory, whichever it is, and what it holds.

ghost use Rattle.both_ends.specs.Stores.{all_or_none, answers};
ghost use Rattle.std.specs.Prelude.{◌≡◌, is_ok, IfOk};

use memory::fault::MemoryFault;
use memory::storage::Memory;
use std::alloc::{AllocError, Global};

/// A byte to store, and where.
#[derive(Clone, Copy, PartialEq, Eq, Debug)]
pub struct Store {
    pub address: u64,
    pub byte: u8,
}

/// What a memory answers to a store.
pub type Answer = Result<(), MemoryFault>;

/// Stores one byte after another, and answers what the memory answered to each. Where there is no room for the
/// answers, nothing is stored.
pub fn store_all<M: Memory>(
    heap: Global,
    memory: &mut M,
    stores: &[Store],
) -> Result<Vec<Answer>, AllocError>
    ensures answers { IfOk result (λ v. v.items ≡ answers (M.Memory.bytes memory.old) stores.now) }
    ensures after { M.Memory.bytes memory.new ≡ all_or_none (is_ok result) (M.Memory.bytes memory.old) stores.now }
    ensures frame { M.Memory.frame memory.new ≡ M.Memory.frame memory.old }
{
    let mut answers = Vec::with_capacity(heap, stores.len())?;
    for store in stores {
        answers.push_reserved(memory.store(store.address, store.byte));
    }
    Ok(answers)
}

/// The bytes of a memory, from address 0 on.
pub fn bytes_held<M: Memory>(heap: Global, memory: &M) -> Result<Vec<u8>, AllocError>
    ensures { IfOk result (λ v. v.items ≡ M.Memory.bytes memory.now) }
{
    let mut bytes = Vec::new(heap);
    for address in 0..memory.size() {
        bytes.push(memory.look(address).unwrap())?;
    }
    Ok(bytes)
}
