//! Memory of its own, as a space.
ghost use Rattle.std.specs.Prelude.{◌≡◌, ◌+◌, ◌^◌, ◌<◌, ◌≤◌, ℕ, [], length, refl, IfOk};
ghost use Rattle.std.specs.Vec.{with_items};
ghost use Rattle.std.proofs.Common.{subst, sym};
ghost use Rattle.w16_model.specs.Bytes.{put_part, repeated};
ghost use Rattle.w16_region.specs.Bytes.{counted, word_in, put_word};
ghost use Rattle.w16_region.specs.Bytes.{length-with_items, with_items-put_part};

use crate::{Space, Storage};
use byteorder::{ByteOrder, LittleEndian};
use std::alloc::{AllocError, Allocator, Global};

/// Memory of its own, as a space: fewer than 2^32 bytes, with the count of those written. In a
/// contract its bytes are the list `bytes.items`, and the count is `written`.
///
/// It is no [`crate::Framed`], which says the same of any storage: a struct that is generic in its
/// allocator can't hold one, since its invariant would then speak of a bound that only a generic
/// `impl` meets.
#[derive(Drop)]
pub struct Region<A: Allocator = Global> {
    pub(crate) bytes: Vec<u8, A>,
    pub(crate) written: u64,
    ghost small: { length bytes.items < 2 ^ 32 },
}

impl<A: Allocator> Region<A> {
    /// A region of `size` bytes, all zero, of which none counts as written yet. It takes all its
    /// memory here, and fails where there is not enough.
    #[tactic(auto, unfolding(w16_model::specs::Bytes::repeated))]
    pub fn new(alloc: A, size: u32) -> Result<Region<A>, AllocError>
        ensures bytes { IfOk result (λ r. r.bytes.items ≡ repeated size 0) }
        ensures length { IfOk result (λ r. length r.bytes.items ≡ size) }
        ensures written { IfOk result (λ r. r.written ≡ 0) }
    {
        let bytes = vec![in alloc; 0; size as usize]?;
        Ok(Region { bytes, written: 0 })
    }

    /// The double word of the four bytes from `at` on, the lowest byte first.
    #[tactic(auto, unfolding(crate::specs::Bytes::word_in))]
    pub fn word_at(&self, at: u32) -> u32
        requires { at + 4 ≤ length self.now.bytes.items }
        ensures { result ≡ word_in self.now.bytes.items at }
    {
        LittleEndian::read_u32(self.view(at, 4))
    }

    /// Sets the four bytes from `at` on to a double word, the lowest byte first, and no other. They
    /// don't count as written: a word is a note of who keeps memory, not what a program wrote there.
    pub fn set_word(&mut self, at: u32, value: u32)
        requires { at + 4 ≤ length self.old.bytes.items }
        ensures bytes { self.new.bytes.items ≡ put_word self.old.bytes.items at value }
        ensures length { length self.new.bytes.items ≡ length self.old.bytes.items }
        ensures word { word_in self.new.bytes.items at ≡ value }
        ensures written { self.new.written ≡ self.old.written }
    {
        LittleEndian::write_u32(self.bytes.lend_part(at as usize, 4), value);
    }
}

impl<A: Allocator> Space for Region<A> {
    ghost bytes = { λ r. r.bytes.items };

    ghost written = { λ r. r.written };

    ghost lenders = { λ r. [] };

    ghost after_part = { λ r at size new. record {
      bytes = with_items r.bytes (put_part r.bytes.items at new);
      written = counted r.written size;
      small = subst (λ (k : ℕ). k < 2 ^ 32) (sym (length-with_items r.bytes (put_part r.bytes.items at new))) r.small;
    } };

    ghost after_bytes = { λ r at size new le. with_items-put_part r.bytes at new le };

    ghost after_length = { λ r at size new. length-with_items r.bytes (put_part r.bytes.items at new) };

    ghost after_written = { λ r at size new. refl };

    ghost after_lenders = { λ r at size new. refl };

    fn len(&self) -> u32 {
        self.bytes.len() as u32
    }

    fn view(&self, at: u32, size: u32) -> &[u8] {
        let at = at as usize;
        &self.bytes.whole()[at..at + size as usize]
    }

    fn view_mut(&mut self, at: u32, size: u32) -> &mut [u8] {
        self.written = self.written.saturating_add(size as u64);
        self.bytes.lend_part(at as usize, size as usize)
    }

    fn pair(
        &mut self,
        from: u32,
        source_size: u32,
        to: u32,
        target_size: u32,
    ) -> (&[u8], &mut [u8]) {
        self.written = self.written.saturating_add(target_size as u64);
        self.bytes.lend_pair(
            from as usize,
            source_size as usize,
            to as usize,
            target_size as usize,
        )
    }

    #[tactic(auto, using(crate::specs::Bytes::lengths), unfolding(w16_model::specs::Bytes::repeated))]
    fn fill(&mut self, at: u32, size: u32, byte: u8) {
        self.view_mut(at, size).fill(byte);
    }

    #[tactic(auto, using(crate::specs::Bytes::lengths))]
    fn slide(&mut self, from: u32, to: u32, size: u32) {
        self.written = self.written.saturating_add(size as u64);
        self.bytes
            .slide_part(from as usize, to as usize, size as usize);
    }

    fn written(&self) -> u64 {
        self.written
    }
}
