//! The number that a word writes.
ghost use Rattle.request.specs.Numbers.{read_number};
ghost use Rattle.std.specs.Prelude.{◌≡◌};

use crate::fault::NumberFault;

/// The number that word `word` of a line writes. A byte that is no digit counts before the size.
pub(crate) fn read_number(word: u32, bytes: &[u8]) -> Result<u32, NumberFault>
    ensures { result ≡ read_number word bytes.now }
{
    if bytes.is_empty() {
        return Err(NumberFault::NotDigits { word });
    }
    // past the largest number that a word may write it does not matter which is held
    let mut value: u64 = 0;
    for byte in bytes {
        if !byte.is_ascii_digit() {
            return Err(NumberFault::NotDigits { word });
        }
        value = value
            .saturating_mul(10)
            .saturating_add(u64::from(*byte - b'0'));
    }
    u32::try_from(value).or(Err(NumberFault::TooLarge { word }))
}
