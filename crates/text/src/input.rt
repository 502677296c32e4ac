//! The bytes of a text, from where it comes.
ghost use Rattle.std.specs.Io.KnownBytes.{Consumes, IsAtEnd};
ghost use Rattle.std.specs.Prelude.{◌≡◌, ◌+◌, ◌<◌, ◌≤◌, ◌++◌, length, take, IfOk, IfSome, vec_len};

use request::reader::MOST_BYTES;
use std::alloc::Global;
use std::io;
use std::io::Read;

/// Appends the bytes of one read into `block`, and says how many they are.
fn read_block<R: Read>(source: &mut R, block: &mut [u8], text: &mut Vec<u8>) -> io::Result<usize>
    ensures bound { IfOk result (λ n. n ≤ length block.old) }
    ensures len { IfOk result (λ n. vec_len text.new ≡ vec_len text.old + n) }
    ensures items { IfOk result (λ n. text.new.items ≡ text.old.items ++ take n block.new) }
    ensures consumed { IfOk result (λ n. Consumes (R.remaining source.old) (R.remaining source.new) (take n block.new)) }
    ensures end { IfOk result (λ n. n ≡ 0 → 0 < length block.old → IsAtEnd (R.remaining source.new)) }
{
    let got = source.read(block)?;
    text.extend_from_slice(&block[0..got])?;
    Ok(got)
}

/// Reads a text, and no more than one byte past the largest: that byte tells that it is too long.
/// After an error, what was read is lost.
pub fn read_input<R: Read>(alloc: Global, source: &mut R) -> io::Result<Vec<u8>>
    ensures few { IfOk result (λ v. vec_len v ≤ 65537) }
    ensures bytes { IfOk result (λ v. IfSome (R.remaining source.old) (λ xs. v.items ≡ take 65537 xs)) }
    ensures consumed { IfOk result (λ v. Consumes (R.remaining source.old) (R.remaining source.new) v.items) }
{
    let mut text = Vec::new(alloc);
    while text.len() <= MOST_BYTES {
        let mut block = [0u8; 4096];
        let room = (MOST_BYTES + 1 - text.len()).min(block.len());
        let got = read_block(source, &mut block[0..room], &mut text)?;
        if got == 0 {
            break;
        }
    }
    Ok(text)
}
