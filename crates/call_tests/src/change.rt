// A text with one byte changed.
ghost use Rattle.std.specs.Prelude.{◌≡◌, ◌≢◌, ◌<◌, ℕ, length, slice_index, slice_set, IfOk};

use std::alloc::{AllocError, Global};

/// A byte other than `byte`: another digit in place of a digit, and otherwise any other byte.
pub fn other_byte(byte: u8, draw: u64) -> u8
    ensures { result ≢ byte }
{
    if byte >= b'0' && byte <= b'9' {
        let digit = (byte - b'0') as u64;
        b'0' + ((digit + 1 + draw % 9) % 10) as u8
    } else {
        ((byte as u64 + 1 + draw % 255) % 256) as u8
    }
}

/// The bytes with another one at `place`. The only error is out of memory.
pub fn changed(alloc: Global, bytes: &[u8], place: usize, draw: u64) -> Result<Vec<u8>, AllocError>
    requires { place < length bytes.now }
    ensures { IfOk result (λ v. (other : ℕ) × (other ≢ slice_index bytes.now place)
        × (v.items ≡ slice_set bytes.now place other)) }
{
    let mut other = Vec::from_slice(alloc, bytes)?;
    other[place] = other_byte(bytes[place], draw);
    Ok(other)
}
