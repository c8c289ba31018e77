//! A slice that was lent, as a space.
ghost use Rattle.std.specs.Prelude.{◌≡◌, ◌^◌, ◌<◌, length};

use crate::Framed;

/// A slice that was lent, as a space: what is written to the window is written to the slice. In a
/// contract its bytes are the list `bytes.now`, and the count is `written`.
pub type Window<'a> = Framed<&'a mut [u8]>;

impl<'a> Window<'a> {
    /// A window over the whole slice, which stays as it is. Nothing counts as written yet.
    pub fn new(bytes: &'a mut [u8]) -> Window<'a>
        requires { length bytes.old < 2 ^ 32 }
        ensures same_reference { result.bytes.ghost_name ≡ bytes.entry.ghost_name }
        ensures bytes { result.bytes.now ≡ bytes.old }
        ensures written { result.written ≡ 0 }
    {
        Framed { bytes, written: 0 }
    }
}
