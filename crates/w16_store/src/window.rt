//! A part of a file that was read ahead.
ghost use Rattle.std.specs.Prelude.{◌≡◌, ◌+◌, ◌-◌, ◌≤◌, [], length, take, drop, IsTrue, IfOk};

use crate::part::copy_part;
use std::alloc::Global;
use std::io;
use std::io::{Read, Seek, SeekFrom};

/// How many bytes are read beyond those that were asked for.
const AHEAD: usize = 4096;

/// Bytes of a file from an offset on.
#[derive(Drop)]
pub struct Window {
    from: u64,
    bytes: Vec<u8>,
}

impl Window {
    /// No bytes.
    pub fn new(alloc: Global) -> Self
        ensures { result.bytes.items ≡ [] }
    {
        Window {
            from: 0,
            bytes: Vec::new(alloc),
        }
    }

    /// No bytes any more.
    pub fn clear(&mut self)
        ensures { self.new.bytes.items ≡ [] }
    {
        self.bytes.clear();
    }

    /// Fills the buffer with the bytes at an offset of the file. It answers whether the window has them all.
    pub fn copy(&self, at: u64, buf: &mut [u8]) -> bool
        ensures { IsTrue result → (self.now.from ≤ at) × (at + length buf.old ≤ self.now.from + length self.now.bytes.items)
            × (buf.new ≡ take (length buf.old) (drop (at - self.now.from) self.now.bytes.items)) }
    {
        at >= self.from && copy_part(self.bytes.as_slice(), at - self.from, buf).is_ok()
    }

    /// Fills the buffer with the bytes at an offset of a file that has so many at least, and keeps them and some that follow. After an error the bytes are any.
    pub fn read<F: Read + Seek>(
        &mut self,
        file: &mut F,
        at: u64,
        len: u64,
        buf: &mut [u8],
    ) -> io::Result<()>
        requires { at + length buf.old ≤ len }
        ensures { IfOk result (λ _. (self.new.from ≡ at) × (buf.new ≡ take (length buf.old) self.new.bytes.items)) }
    {
        let count = (len - at).min(buf.len().saturating_add(AHEAD) as u64) as usize;
        self.from = at;
        self.bytes.resize(count, 0)?;
        file.seek(SeekFrom::Start(at))?;
        file.read_exact(self.bytes.as_mut_slice())?;
        buf.copy_from_slice(&self.bytes[..buf.len()]);
        Ok(())
    }
}
