//! Bytes that lend parts of themselves: a vector's, or those of a slice that was lent.
ghost use Rattle.std.specs.Prelude.{◌<◌, ◌≡◌, ◌+◌, ◌≤◌, ◌⊎◌, List, ℕ, [], ◌∷◌, length, refl};
ghost use Rattle.std.specs.Borrow.{sem, GName, Array, u8};
ghost use Rattle.std.specs.Vec.{with_items};
ghost use Rattle.w16_model.specs.Bytes.{part, put_part};
ghost use Rattle.w16_region.specs.Bytes.{fitted};
ghost use Rattle.w16_region.specs.Bytes.{fitted-put_part, with_items-put_part};
ghost use Rattle.w16_region.specs.Bytes.{length-fitted, length-with_items};
ghost use Rattle.w16_region.specs.Lending.{LendsFrom, LendsWhole};

use std::alloc::Allocator;

/// Bytes of which parts can be lent and slid, with no count of what was written. Places and sizes
/// are in bytes, and each range lies inside by condition.
pub trait Storage {
    /// The bytes.
    ghost content: { Self → List ℕ };

    /// The names of the borrows that they stand on.
    ghost lenders: { Self → List GName };

    /// `after_part storage at new` is what a storage ends as after it lent a part that begins at
    /// `at`, and `new` are the bytes that its borrower left there.
    ghost after_part: { Self → ℕ → List ℕ → Self };

    /// A loan keeps the length, whatever list is said to be left: also one that is too long or too
    /// short.
    ghost after_part_length: { (s : Self) (at : ℕ) (new : List ℕ)
        → length (content (after_part s at new)) ≡ length (content s) };

    /// All the bytes, to be read.
    fn whole(&self) -> &[u8]
        ensures { result.now ≡ content self.now };

    /// The part of `size` bytes that begins at `at`, to be written.
    fn lend_part(&mut self, at: usize, size: usize) -> &mut [u8]
        requires { at + size ≤ length (content self.old) }
        ensures* writes_back { sem 𝓛 (LendsFrom Self.row after_part self.entry at result) }
        ensures value { result.now ≡ part (content self.old) at size };

    /// Two parts that do not meet: the source, of `source_size` bytes from `from` on, to be read,
    /// and the target, of `target_size` bytes from `to` on, to be written.
    fn lend_pair(
        &mut self,
        from: usize,
        source_size: usize,
        to: usize,
        target_size: usize,
    ) -> (&[u8], &mut [u8])
        requires source { from + source_size ≤ length (content self.old) }
        requires target { to + target_size ≤ length (content self.old) }
        requires apart { (from + source_size ≤ to) ⊎ (to + target_size ≤ from) }
        ensures* writes_back { sem 𝓛 (LendsFrom Self.row after_part self.entry to result.1) }
        ensures values { (result.0.now ≡ part (content self.old) from source_size)
            × (result.1.now ≡ part (content self.old) to target_size) };

    /// Copies the `size` bytes from `from` on to the place `to`, also where the two ranges overlap.
    fn slide_part(&mut self, from: usize, to: usize, size: usize)
        requires source { from + size ≤ length (content self.old) }
        requires target { to + size ≤ length (content self.old) }
        ensures content { content self.new ≡ put_part (content self.old) to (part (content self.old) from size) }
        ensures lenders { lenders self.new ≡ lenders self.old };

    /// The bytes after a loan.
    ghost after_part_content: { (s : Self) (at : ℕ) (new : List ℕ) → at + length new ≤ length (content s)
        → content (after_part s at new) ≡ put_part (content s) at new };

    /// The lenders after a loan.
    ghost after_part_lenders: { (s : Self) (at : ℕ) (new : List ℕ) → lenders (after_part s at new) ≡ lenders s };
}

/// Bytes that are lent all at once, as the first step of a pair.
trait Whole {
    ghost content: { Self → List ℕ };

    ghost after_whole: { Self → List ℕ → Self };

    fn lend_whole(&mut self) -> &mut [u8]
        ensures* writes_back { sem 𝓛 (LendsWhole Self.row after_whole self.entry result) }
        ensures value { result.now ≡ content self.old };
}

impl<A: Allocator> Storage for Vec<u8, A> {
    ghost content = { λ v. v.items };

    ghost lenders = { λ v. [] };

    ghost after_part = { λ v at new. with_items v (put_part v.items at new) };

    ghost after_part_length = { λ v at new. length-with_items v (put_part v.items at new) };

    ghost after_part_content = { λ v at new le. with_items-put_part v at new le };

    ghost after_part_lenders = { λ v at new. refl };

    fn whole(&self) -> &[u8] {
        self.as_slice()
    }

    fn lend_part(&mut self, at: usize, size: usize) -> &mut [u8] {
        self.slice_mut(at..at + size)
    }

    fn lend_pair(
        &mut self,
        from: usize,
        source_size: usize,
        to: usize,
        target_size: usize,
    ) -> (&[u8], &mut [u8]) {
        let bytes = self.lend_whole();
        pair_of(bytes, from, source_size, to, target_size)
    }

    fn slide_part(&mut self, from: usize, to: usize, size: usize) {
        slide_within(self.as_mut_slice(), from, to, size);
    }
}

impl<A: Allocator> Whole for Vec<u8, A> {
    ghost content = { λ v. v.items };

    ghost after_whole = { λ v new. with_items v new };

    fn lend_whole(&mut self) -> &mut [u8] {
        self.as_mut_slice()
    }
}

impl<'a> Storage for &'a mut [u8] {
    ghost content = { λ s. s.now };

    ghost lenders = { λ s. s.ghost_name ∷ [] };

    ghost after_part = { λ s at new. record s { now = fitted s.now (put_part s.now at new) } };

    ghost after_part_length = { λ s at new. length-fitted s.now (put_part s.now at new) };

    ghost after_part_content = { λ s at new le. fitted-put_part s.now at new le };

    ghost after_part_lenders = { λ s at new. refl };

    fn whole(&self) -> &[u8] {
        &**self
    }

    fn lend_part(&mut self, at: usize, size: usize) -> &mut [u8] {
        &mut self[at..at + size]
    }

    fn lend_pair(
        &mut self,
        from: usize,
        source_size: usize,
        to: usize,
        target_size: usize,
    ) -> (&[u8], &mut [u8]) {
        let bytes = self.lend_whole();
        pair_of(bytes, from, source_size, to, target_size)
    }

    fn slide_part(&mut self, from: usize, to: usize, size: usize) {
        slide_within(&mut **self, from, to, size);
    }
}

impl<'a> Whole for &'a mut [u8] {
    ghost content = { λ s. s.now };

    ghost after_whole = { λ s new. record s { now = fitted s.now new } };

    fn lend_whole(&mut self) -> &mut [u8] {
        &mut **self
    }
}

/// Two parts of a slice that do not meet, the first to be read and the second to be written.
fn pair_of(
    bytes: &mut [u8],
    from: usize,
    source_size: usize,
    to: usize,
    target_size: usize,
) -> (&[u8], &mut [u8])
    requires source { from + source_size ≤ length bytes.old }
    requires target { to + target_size ≤ length bytes.old }
    requires apart { (from + source_size ≤ to) ⊎ (to + target_size ≤ from) }
    ensures* writes_back { sem 𝓛 (LendsFrom (Array u8 0) put_part bytes.entry to result.1) }
    ensures values { (result.0.now ≡ part bytes.old from source_size)
        × (result.1.now ≡ part bytes.old to target_size) }
{
    let start = bytes.as_mut_ptr();
    // Safe code would cut by `split_at_mut`, in one way where the source lies below the target and
    // in another where it lies above, and a check does not follow the target's loan back to `bytes`
    // through such a cut. So both parts come from one pointer.
    // SAFETY: by condition both parts lie inside the slice and do not meet.
    unsafe {
        (
            std::slice::from_raw_parts(start.add(from), source_size),
            std::slice::from_raw_parts_mut(start.add(to), target_size),
        )
    }
}

/// The most bytes that are copied at once.
const PIECE: usize = 4096;

/// Copies the `size` bytes from `from` on to the place `to`, also where the two ranges overlap.
fn slide_within(bytes: &mut [u8], from: usize, to: usize, size: usize)
    requires source { from + size ≤ length bytes.old }
    requires target { to + size ≤ length bytes.old }
    ensures { bytes.new ≡ put_part bytes.old to (part bytes.old from size) }
{
    if to < from {
        slide_down(bytes, from, to, size);
    } else {
        slide_up(bytes, from, to, size);
    }
}

/// The same downwards, from the first piece on.
fn slide_down(bytes: &mut [u8], from: usize, to: usize, size: usize)
    requires source { from + size ≤ length bytes.old }
    requires down { to < from }
    ensures { bytes.new ≡ put_part bytes.old to (part bytes.old from size) }
{
    let mut done = 0;
    while done < size {
        let piece = PIECE.min(size - done);
        slide_piece(bytes, from + done, to + done, piece);
        done += piece;
    }
}

/// The same upwards, from the last piece on.
fn slide_up(bytes: &mut [u8], from: usize, to: usize, size: usize)
    requires target { to + size ≤ length bytes.old }
    requires up { from ≤ to }
    ensures { bytes.new ≡ put_part bytes.old to (part bytes.old from size) }
{
    let mut left = size;
    while left > 0 {
        let piece = PIECE.min(left);
        left -= piece;
        slide_piece(bytes, from + left, to + left, piece);
    }
}

/// The same for one piece, by two copies of bytes that don't overlap. The compiler joins them into one that may, and drops the buffer.
fn slide_piece(bytes: &mut [u8], from: usize, to: usize, size: usize)
    requires source { from + size ≤ length bytes.old }
    requires target { to + size ≤ length bytes.old }
    requires short { size ≤ 4096 }
    ensures { bytes.new ≡ put_part bytes.old to (part bytes.old from size) }
{
    let mut buffer = [0; PIECE];
    buffer[..size].copy_from_slice(&bytes[from..from + size]);
    bytes[to..to + size].copy_from_slice(&buffer[..size]);
}
