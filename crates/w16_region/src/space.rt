//! What code over memory is generic in.
ghost use Rattle.std.specs.Prelude.{◌≡◌, ◌+◌, ◌<◌, ◌≤◌, ◌⊎◌, All, List, ℕ, length};
ghost use Rattle.std.specs.Borrow.{sem, GName};
ghost use Rattle.w16_model.specs.Bytes.{part, put_part, repeated};
ghost use Rattle.w16_region.specs.Bytes.{counted};
ghost use Rattle.w16_region.specs.Lending.{LendsPart};

/// Memory, as a list of bytes. Places and sizes are in bytes, and each range lies inside by
/// condition.
///
/// It counts the bytes that were written: each call that writes a range, or lends one for writing,
/// adds the size of that range.
pub trait Space {
    /// Its bytes.
    ghost bytes: { Self → List ℕ };

    /// How many bytes were slid, filled or lent for writing so far. A count that would pass the
    /// largest `u64` stays there.
    ghost written: { Self → ℕ };

    /// The names of the borrows that it stands on: none where the memory is its own, and that of
    /// the lent slice for a window. While they stay the same, what is written to the space is
    /// written to that same slice.
    ghost lenders: { Self → List GName };

    /// `after_part space at size new` is what a space ends as after a loan: it lent the part of
    /// `size` bytes that begins at `at`, and `new` are the bytes that its borrower left there.
    ///
    /// So its bytes are the old ones with `new` put at `at`, `size` more bytes count as written,
    /// and its lenders are the same: the four laws below say so. It is a function of what the
    /// borrower leaves, since that is known only once the loan is over.
    ghost after_part: { Self → ℕ → ℕ → List ℕ → Self };

    /// How many bytes it has.
    fn len(&self) -> u32
        ensures { result ≡ length (bytes self.now) };

    /// The part of `size` bytes that begins at `at`, to be read.
    fn view(&self, at: u32, size: u32) -> &[u8]
        requires { at + size ≤ length (bytes self.now) }
        ensures { result.now ≡ part (bytes self.now) at size };

    /// The part of `size` bytes that begins at `at`, to be written. All of it counts as written.
    fn view_mut(&mut self, at: u32, size: u32) -> &mut [u8]
        requires { at + size ≤ length (bytes self.old) }
        ensures value { result.now ≡ part (bytes self.old) at size }
        ensures* writes_back { sem 𝓛 (LendsPart Self.row after_part self.entry at size result) };

    /// Two parts that do not meet: the source, of `source_size` bytes from `from` on, to be read,
    /// and the target, of `target_size` bytes from `to` on, to be written. All of the target
    /// counts as written, and nothing of the source.
    fn pair(&mut self, from: u32, source_size: u32, to: u32, target_size: u32) -> (&[u8], &mut [u8])
        requires source { from + source_size ≤ length (bytes self.old) }
        requires target { to + target_size ≤ length (bytes self.old) }
        requires apart { (from + source_size ≤ to) ⊎ (to + target_size ≤ from) }
        ensures source { result.0.now ≡ part (bytes self.old) from source_size }
        ensures target { result.1.now ≡ part (bytes self.old) to target_size }
        ensures* writes_back { sem 𝓛 (LendsPart Self.row after_part self.entry to target_size result.1) };

    /// Sets each of the `size` bytes from `at` on to `byte`. They count as written.
    fn fill(&mut self, at: u32, size: u32, byte: u8)
        requires { at + size ≤ length (bytes self.old) }
        ensures bytes { bytes self.new ≡ put_part (bytes self.old) at (repeated size byte) }
        ensures length { length (bytes self.new) ≡ length (bytes self.old) }
        ensures written { written self.new ≡ counted (written self.old) size }
        ensures lenders { lenders self.new ≡ lenders self.old };

    /// Copies the `size` bytes from `from` on to the place `to`, also where the two ranges overlap.
    /// The `size` bytes at `to` count as written.
    fn slide(&mut self, from: u32, to: u32, size: u32)
        requires source { from + size ≤ length (bytes self.old) }
        requires target { to + size ≤ length (bytes self.old) }
        ensures bytes { bytes self.new ≡ put_part (bytes self.old) to (part (bytes self.old) from size) }
        ensures length { length (bytes self.new) ≡ length (bytes self.old) }
        ensures written { written self.new ≡ counted (written self.old) size }
        ensures lenders { lenders self.new ≡ lenders self.old };

    /// How many bytes were written so far, as far as a `u64` counts.
    fn written(&self) -> u64
        ensures { result ≡ written self.now };

    /// The bytes after a loan.
    ghost after_bytes: { (s : Self) (at size : ℕ) (new : List ℕ) → at + length new ≤ length (bytes s)
        → bytes (after_part s at size new) ≡ put_part (bytes s) at new };

    /// A loan keeps the length, whatever list is said to be left: also one that is too long or too
    /// short.
    ghost after_length: { (s : Self) (at size : ℕ) (new : List ℕ)
        → length (bytes (after_part s at size new)) ≡ length (bytes s) };

    /// The count after a loan.
    ghost after_written: { (s : Self) (at size : ℕ) (new : List ℕ)
        → written (after_part s at size new) ≡ counted (written s) size };

    /// The lenders after a loan.
    ghost after_lenders: { (s : Self) (at size : ℕ) (new : List ℕ) → lenders (after_part s at size new) ≡ lenders s };
}

/// Tells the prover that a space holds nothing but bytes, as every space does. It does nothing else.
pub fn reveal_bytes<S: Space>(space: &S)
    ensures { All (λ b. b < 256) (S.bytes space.now) }
{
    are_bytes(space.view(0, space.len()));
}

/// Says that each item of a slice of bytes is one. It has no effect.
fn are_bytes(bytes: &[u8])
    ensures { All (λ b. b < 256) bytes.now }
{}
