//! Text of others, in XML and on a terminal: nothing in it becomes markup, and no control character gets through.
ghost use Rattle.std.specs.Prelude.{◌≡◌, ◌++◌};
ghost use Rattle.w16_picture.specs.Escape.{Adds, byte_shown, byte_text, shown, escaped, IsText};

use std::alloc::AllocError;

/// Appends a byte as ASCII prints it, or by its code.
#[tactic(auto, unfolding(crate::specs::Escape::byte_shown))]
fn push_shown_byte(out: &mut String, byte: u8) -> Result<(), AllocError>
    ensures { Adds result out.old out.new (byte_shown byte) }
{
    if byte < 32 || 126 < byte {
        write!(out, "\\x{byte:02x}")
    } else {
        out.push(char::from(byte))
    }
}

/// Appends a byte, by its entity where it has a meaning in XML.
#[tactic(auto, unfolding(crate::specs::Escape::byte_text))]
fn push_byte(out: &mut String, byte: u8) -> Result<(), AllocError>
    ensures { Adds result out.old out.new (byte_text byte) }
{
    match byte {
        b'"' => out.push_str("&quot;"),
        b'&' => out.push_str("&amp;"),
        b'\'' => out.push_str("&apos;"),
        b'<' => out.push_str("&lt;"),
        b'>' => out.push_str("&gt;"),
        _ => push_shown_byte(out, byte),
    }
}

/// Appends a text for a terminal: bytes that ASCII doesn't print by their codes.
pub fn push_shown(out: &mut String, bytes: &[u8]) -> Result<(), AllocError>
    ensures { Adds result out.old out.new (shown bytes.now) }
{
    for byte in bytes {
        push_shown_byte(out, *byte)?;
    }
    Ok(())
}

/// Appends a text in which nothing is markup.
pub fn push_escaped(out: &mut String, bytes: &[u8]) -> Result<(), AllocError>
    ensures text { Adds result out.old out.new (escaped bytes.now) }
    ensures plain { IsText (escaped bytes.now) }
{
    for byte in bytes {
        push_byte(out, *byte)?;
    }
    Ok(())
}
