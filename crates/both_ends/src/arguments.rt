//! What the arguments ask for.

ghost use Rattle.both_ends.specs.Arguments.{Read, Written, stores_in};

use crate::stores::Store;
use std::alloc::Global;
use thiserror::Error;

/// Why numbers are not pairs of an address and a byte, or found no room as such.
#[derive(Clone, Copy, PartialEq, Eq, Debug, Error)]
pub enum PairFault {
    #[error("no byte for address {address:x}")]
    NoByte { address: u64 },
    #[error("{number:x} is no byte, it is above ff")]
    TooLarge { number: u64 },
    #[error("no memory for the stores")]
    NoRoom,
}

/// The number of at most 64 bits that hex digits write.
pub fn hex_number(text: &str) -> Option<u64>
    ensures { Written text.now result }
{
    if text.starts_with('+') {
        return None;
    }
    u64::from_str_radix(text, 16).ok()
}

/// The stores that numbers ask for, an address and a byte each.
pub fn stores_in(heap: Global, numbers: &[u64]) -> Result<Vec<Store>, PairFault>
    ensures { Read (stores_in numbers.now) result }
{
    let mut stores = Vec::new(heap);
    let mut rest = numbers;
    while let &[address, number, ref more @ ..] = rest {
        let byte = u8::try_from(number).map_err(|_| PairFault::TooLarge { number })?;
        stores
            .push(Store { address, byte })
            .map_err(|_| PairFault::NoRoom)?;
        rest = more;
    }
    match rest.first() {
        None => Ok(stores),
        Some(&address) => Err(PairFault::NoByte { address }),
    }
}
