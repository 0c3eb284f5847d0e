//! What digits stand for: two hex digits a byte, decimal digits a count of seconds.
ghost use Rattle.std.specs.Prelude.{◌≡◌, ◌^◌, ◌<◌, if◌then◌else◌, nat_lt, IfSome, Some, None};
ghost use Rattle.moveon.specs.Digits.{hex_digit, hex_byte, all_decimal, decimal, count_in};

use thiserror::Error;

/// The first number that is too large for a count of seconds: past it the digits read so far need not be known.
const COUNT_LIMIT: u64 = 1 << 32;

/// Why a text is no count of seconds.
#[derive(Clone, Copy, PartialEq, Eq, Debug, Error)]
pub enum CountFault {
    #[error("expected a decimal count of seconds")]
    NotDecimal,
    #[error("the count is above 4294967295")]
    TooLarge,
}

fn hex_digit(byte: u8) -> Option<u32>
    ensures is { result ≡ hex_digit byte }
    ensures below { IfSome result (λ d. d < 16) }
{
    char::from(byte).to_digit(16)
}

/// The byte that two hex digits write, the high one first.
pub fn hex_byte(text: &[u8]) -> Option<u8>
    ensures { result ≡ hex_byte text.now }
{
    let &[high, low] = text else {
        return None;
    };
    let high = hex_digit(high)?;
    let low = hex_digit(low)?;
    Some((16 * high + low) as u8)
}

fn all_decimal(text: &[u8]) -> bool
    ensures { result ≡ all_decimal text.now }
{
    text.iter().all(u8::is_ascii_digit)
}

/// The number that decimal digits write, where it has 32 bits.
fn decimal(text: &[u8]) -> Option<u32>
    ensures { result ≡ (if nat_lt (decimal text.now) (2 ^ 32) then Some (decimal text.now) else None) }
{
    let number = text.iter().fold(0u64, |number, byte| {
        10 * number.min(COUNT_LIMIT) + u64::from(byte.saturating_sub(b'0'))
    });
    u32::try_from(number).ok()
}

/// The count of seconds that a text writes.
pub fn count_in(text: &[u8]) -> Result<u32, CountFault>
    ensures { result ≡ count_in text.now }
{
    if !all_decimal(text) {
        return Err(CountFault::NotDecimal);
    }
    decimal(text).ok_or(CountFault::TooLarge)
}
