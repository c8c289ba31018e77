//! Parts of files.
ghost use Rattle.std.specs.Prelude.{◌≡◌, ℕ, ◌+◌, ◌≤◌, ◌<◌, MatchBool, Some, length, All};
ghost use Rattle.w16_store.specs.Files.{bytes_of, IsHonestAnswer};

use crate::store::StoreFault;

/// Whether a file of so many bytes has `count` of them at an offset.
pub fn has_part(len: u64, at: u64, count: usize) -> bool
    ensures { MatchBool result (at + count ≤ len) (len < at + count) }
{
    at <= len && count as u64 <= len - at
}

/// Fills the buffer with the bytes of a file at an offset.
pub fn copy_part(bytes: &[u8], at: u64, buf: &mut [u8]) -> Result<(), StoreFault>
    ensures { IsHonestAnswer (λ _. buf.new) 0 0 result (bytes_of (Some bytes.now) at (length buf.old)) }
{
    if !has_part(bytes.len() as u64, at, buf.len()) {
        return Err(StoreFault::Short);
    }
    let from = at as usize;
    buf.copy_from_slice(&bytes[from..from + buf.len()]);
    Ok(())
}

/// Tells the prover that each item of a slice of bytes is one. It does nothing else.
pub fn reveal_bytes(bytes: &[u8])
    ensures { All (λ b. b < 256) bytes.now }
{}
