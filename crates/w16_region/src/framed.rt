//! Bytes of some storage, as a space.
ghost use Rattle.std.specs.Prelude.{◌^◌, ◌<◌, ℕ, length, refl};
ghost use Rattle.std.proofs.Common.{subst, sym};
ghost use Rattle.w16_region.specs.Bytes.{counted};

use crate::{Space, Storage};

/// Bytes of some storage, as a space: fewer than 2^32 of them, with the count of those written.
#[derive(Drop)]
pub struct Framed<B: Storage> {
    pub(crate) bytes: B,
    pub(crate) written: u64,
    ghost small: { length (B.content bytes) < 2 ^ 32 },
}

impl<B: Storage> Space for Framed<B> {
    ghost bytes = { λ f. B.content f.bytes };

    ghost written = { λ f. f.written };

    ghost lenders = { λ f. B.lenders f.bytes };

    ghost after_part = { λ f at size new. record {
      bytes = B.after_part f.bytes at new;
      written = counted f.written size;
      small = subst (λ (k : ℕ). k < 2 ^ 32) (sym (B.after_part_length f.bytes at new)) f.small;
    } };

    ghost after_bytes = { λ f at size new le. B.after_part_content f.bytes at new le };

    ghost after_length = { λ f at size new. B.after_part_length f.bytes at new };

    ghost after_written = { λ f at size new. refl };

    ghost after_lenders = { λ f at size new. B.after_part_lenders f.bytes at new };

    fn len(&self) -> u32 {
        self.bytes.whole().len() as u32
    }

    fn view(&self, at: u32, size: u32) -> &[u8] {
        let at = at as usize;
        &self.bytes.whole()[at..at + size as usize]
    }

    fn view_mut(&mut self, at: u32, size: u32) -> &mut [u8] {
        self.written = self.written.saturating_add(size as u64);
        self.bytes.lend_part(at as usize, size as usize)
    }

    fn pair(
        &mut self,
        from: u32,
        source_size: u32,
        to: u32,
        target_size: u32,
    ) -> (&[u8], &mut [u8]) {
        self.written = self.written.saturating_add(target_size as u64);
        self.bytes.lend_pair(
            from as usize,
            source_size as usize,
            to as usize,
            target_size as usize,
        )
    }

    #[tactic(auto, using(crate::specs::Bytes::lengths), unfolding(w16_model::specs::Bytes::repeated))]
    fn fill(&mut self, at: u32, size: u32, byte: u8) {
        self.view_mut(at, size).fill(byte);
    }

    #[tactic(auto, using(crate::specs::Bytes::lengths))]
    fn slide(&mut self, from: u32, to: u32, size: u32) {
        self.written = self.written.saturating_add(size as u64);
        self.bytes
            .slide_part(from as usize, to as usize, size as usize);
    }

    fn written(&self) -> u64 {
        self.written
    }
}
