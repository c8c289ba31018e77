//! Bytes and words of tables, and text made of bytes.
ghost use Rattle.std.specs.Prelude.{◌≡◌, ◌+◌, ◌<◌, ◌^◌, slice_index, string_bytes};
ghost use Rattle.w16_ne.specs.Reading.{word_of};
ghost use Rattle.w16_show.specs.Words.{Adds, byte_text, escaped, flag_text};

use std::alloc::AllocError;

/// The byte at an index; 0 past the end.
pub fn byte(bytes: &[u8], at: usize) -> u8
    ensures { result ≡ slice_index bytes.now at }
{
    bytes.get(at).copied().unwrap_or(0)
}

/// The word at an index, the low byte first; bytes past the end are 0.
pub fn word(bytes: &[u8], at: usize) -> u16
    requires { at + 1 < 2 ^ 64 }
    ensures { result ≡ word_of bytes.now at }
{
    u16::from(byte(bytes, at)) + 256 * u16::from(byte(bytes, at + 1))
}

/// Adds a byte to a text: as it is where ASCII prints it, and no quote or backslash, else by its code.
#[tactic(auto, unfolding(crate::specs::Words::byte_text))]
fn push_byte(out: &mut String, byte: u8) -> Result<(), AllocError>
    ensures { Adds result (string_bytes out.old) (string_bytes out.new) (byte_text byte) }
{
    if byte < 32 || 126 < byte || byte == b'"' || byte == b'\\' {
        write!(out, "\\x{byte:02x}")
    } else {
        out.push(char::from(byte))
    }
}

/// Adds bytes to a text, each so.
pub fn push_escaped(out: &mut String, bytes: &[u8]) -> Result<(), AllocError>
    ensures { Adds result (string_bytes out.old) (string_bytes out.new) (escaped bytes.now) }
{
    for byte in bytes {
        push_byte(out, *byte)?;
    }
    Ok(())
}

/// Adds a flag's word to a text, where the flag is set.
#[tactic(auto, unfolding(crate::specs::Words::flag_text))]
pub fn push_flag(out: &mut String, flags: u16, bit: u16, word: &str) -> Result<(), AllocError>
    ensures { Adds result (string_bytes out.old) (string_bytes out.new) (flag_text flags bit word.now) }
{
    if flags & bit == 0 {
        return Ok(());
    }
    write!(out, " {word}")
}
