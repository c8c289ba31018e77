//! Callers that are generic in the space, with the exact bytes in their contracts, and rows of calls
//! that are made on a region and on a window.
ghost use Rattle.std.specs.Prelude.{◌≡◌, ◌+◌, ◌^◌, ◌<◌, ◌≤◌, ◌⊎◌, IsTrue, ℕ, length};
ghost use Rattle.w16_model.specs.Bytes.{part, put_part, repeated};
ghost use Rattle.w16_region.specs.Bytes.{counted};

use Call::*;
use Word::*;
use std::marker::Model;
use std::process::Abort;
use std::test::Fail;
use w16_region::{Region, Space, Window};

/// Copies between parts that do not meet.
fn copy_apart<S: Space>(space: &mut S, from: u32, to: u32, size: u32)
    requires source { from + size ≤ length (S.bytes space.old) }
    requires target { to + size ≤ length (S.bytes space.old) }
    requires apart { (from + size ≤ to) ⊎ (to + size ≤ from) }
    ensures bytes { S.bytes space.new ≡ put_part (S.bytes space.old) to (part (S.bytes space.old) from size) }
    ensures length { length (S.bytes space.new) ≡ length (S.bytes space.old) }
    ensures written { S.written space.new ≡ counted (S.written space.old) size }
    ensures lenders { S.lenders space.new ≡ S.lenders space.old }
{
    let (source, target) = space.pair(from, size, to, size);
    target.copy_from_slice(source);
}

/// Puts bytes at a place.
fn put<S: Space>(space: &mut S, at: u32, new: &[u8])
    requires inside { at + length new.now ≤ length (S.bytes space.old) }
    requires short { length new.now < 2 ^ 32 }
    ensures bytes { S.bytes space.new ≡ put_part (S.bytes space.old) at new.now }
    ensures length { length (S.bytes space.new) ≡ length (S.bytes space.old) }
    ensures written { S.written space.new ≡ counted (S.written space.old) (length new.now) }
    ensures lenders { S.lenders space.new ≡ S.lenders space.old }
{
    space.view_mut(at, new.len() as u32).copy_from_slice(new);
}

/// Copies inside a slice that the caller has, by a window over it.
fn copy_in_slice(bytes: &mut [u8], from: u32, to: u32, size: u32)
    requires small { length bytes.old < 2 ^ 32 }
    requires source { from + size ≤ length bytes.old }
    requires target { to + size ≤ length bytes.old }
    requires apart { (from + size ≤ to) ⊎ (to + size ≤ from) }
    ensures { bytes.new ≡ put_part bytes.old to (part bytes.old from size) }
{
    let mut window = Window::new(bytes);
    copy_apart(&mut window, from, to, size);
}

/// Sets part of a slice that the caller has to zero, by a window over it.
fn blank_in_slice(bytes: &mut [u8], at: u32, size: u32)
    requires small { length bytes.old < 2 ^ 32 }
    requires inside { at + size ≤ length bytes.old }
    ensures { bytes.new ≡ put_part bytes.old at (repeated size 0) }
{
    let mut window = Window::new(bytes);
    window.fill(at, size, 0);
}

/// Whether a part lies in twelve bytes.
fn is_inside(at: u32, size: u32) -> bool
    ensures { IsTrue result → at + size ≤ 12 }
{
    at <= 12 && size <= 12 - at
}

/// Whether as many bytes as these lie in twelve bytes.
fn fits(at: u32, bytes: &[u8]) -> bool
    ensures { IsTrue result → at + length bytes.now ≤ 12 }
{
    bytes.len() <= 12 && is_inside(at, bytes.len() as u32)
}

/// Whether two parts do not meet.
fn are_apart(from: u32, source_size: u32, to: u32, target_size: u32) -> bool
    requires source { from + source_size ≤ 12 }
    requires target { to + target_size ≤ 12 }
    ensures { IsTrue result → (from + source_size ≤ to) ⊎ (to + target_size ≤ from) }
{
    from + source_size <= to || to + target_size <= from
}

/// Whether a part may be copied to another in twelve bytes.
fn may_copy(from: u32, to: u32, size: u32) -> bool
    ensures inside { IsTrue result → (from + size ≤ 12) × (to + size ≤ 12) }
    ensures apart { IsTrue result → (from + size ≤ to) ⊎ (to + size ≤ from) }
{
    is_inside(from, size) && is_inside(to, size) && are_apart(from, size, to, size)
}

/// A call of a space.
#[derive(Clone, Copy, Debug)]
enum Call {
    /// The part from a place on, which is these bytes.
    View(u32, &'static [u8]),
    Put(u32, &'static [u8]),
    /// A place, a size and the byte.
    Fill(u32, u32, u8),
    /// From a place to another, and a size.
    Slide(u32, u32, u32),
    Copy(u32, u32, u32),
    /// A pair: the source from a place on, which is these bytes, and the one byte at another place, which is given another value.
    Pair(u32, &'static [u8], u32, u8),
}

/// A space of twelve bytes. To a proof it has no value: what a call promises is used where a method makes it, and no loop carries it.
#[derive(Drop)]
struct Bench<S: Space> {
    space: S,
}

impl<S: Space> Model for Bench<S> {
    ghost Value = { ℕ };

    ghost view = { λ _. 0 };

    ghost invariant = { λ s. length (S.bytes s.space) ≡ 12 };
}

impl<S: Space> Bench<S> {
    /// Makes a call; false where it would be outside, or a part isn't what it should be.
    fn call(&mut self, call: Call) -> bool {
        match call {
            View(at, bytes) => self.shows(at, bytes),
            Pair(from, source, to, byte) => self.pair(from, source, to, byte),
            _ => self.change(call),
        }
    }

    fn shows(&self, at: u32, bytes: &[u8]) -> bool {
        fits(at, bytes) && self.space.view(at, bytes.len() as u32) == bytes
    }

    /// Makes a call that reads nothing; false where it would be outside.
    fn change(&mut self, call: Call) -> bool {
        match call {
            Put(at, bytes) if fits(at, bytes) => put(&mut self.space, at, bytes),
            Fill(at, size, byte) if is_inside(at, size) => self.space.fill(at, size, byte),
            Slide(from, to, size) if is_inside(from, size) && is_inside(to, size) => {
                self.space.slide(from, to, size);
            }
            Copy(from, to, size) if may_copy(from, to, size) => {
                copy_apart(&mut self.space, from, to, size);
            }
            _ => return false,
        }
        true
    }

    fn pair(&mut self, from: u32, source: &[u8], to: u32, byte: u8) -> bool {
        let may = fits(from, source)
            && is_inside(to, 1)
            && are_apart(from, source.len() as u32, to, 1);
        if !may {
            return false;
        }
        let (found, target) = self.space.pair(from, source.len() as u32, to, 1);
        let same = found == source;
        target.fill(byte);
        same
    }

    /// Whether it has these bytes, and so many count as written.
    fn has(&self, bytes: &[u8], written: u64) -> bool {
        self.space.len() == 12 && self.shows(0, bytes) && self.space.written() == written
    }

    /// Makes the calls of all lines, each of which has to leave its bytes and its count.
    fn check_lines(&mut self, rt: &impl Abort) {
        for (call, bytes, written) in LINES {
            let right = self.call(*call) && self.has(bytes, *written);
            assert!(rt; right, "{call:?}");
        }
    }
}

/// A call, the bytes that it leaves, and how many count as written then.
type Line = (Call, [u8; 12], u64);

/// The bytes that are left in the end.
const LEFT: [u8; 12] = [4, 5, 4, 5, 6, 4, 5, 6, 3, 4, 5, 5];

/// On a space of twelve zero bytes of which none counts as written.
static LINES: &[Line] = &[
    (View(0, &[0, 0]), [0, 0, 0, 0, 0, 0, 0, 0, 0, 0, 0, 0], 0),
    (Fill(2, 3, 7), [0, 0, 7, 7, 7, 0, 0, 0, 0, 0, 0, 0], 3),
    (
        Put(0, &[1, 2, 3, 4, 5, 6]),
        [1, 2, 3, 4, 5, 6, 0, 0, 0, 0, 0, 0],
        9,
    ),
    (View(1, &[2, 3, 4]), [1, 2, 3, 4, 5, 6, 0, 0, 0, 0, 0, 0], 9),
    // A part slides up over itself, and down.
    (Slide(0, 2, 6), [1, 2, 1, 2, 3, 4, 5, 6, 0, 0, 0, 0], 15),
    (Slide(4, 1, 4), [1, 3, 4, 5, 6, 4, 5, 6, 0, 0, 0, 0], 19),
    // A part is copied up, and down.
    (Copy(1, 8, 3), [1, 3, 4, 5, 6, 4, 5, 6, 3, 4, 5, 0], 22),
    (Copy(9, 0, 2), [4, 5, 4, 5, 6, 4, 5, 6, 3, 4, 5, 0], 24),
    (Pair(0, &[4, 5], 11, 5), LEFT, 25),
    // Empty ranges at the end change nothing and count nothing.
    (View(12, &[]), LEFT, 25),
    (Put(12, &[]), LEFT, 25),
    (Fill(12, 0, 9), LEFT, 25),
    (Slide(12, 0, 0), LEFT, 25),
    (Slide(0, 12, 0), LEFT, 25),
    (Copy(12, 12, 0), LEFT, 25),
];

#[test]
fn region_is_a_space(rt: HostRuntime) -> Result<(), Fail> {
    let space = Region::new(rt.alloc(), 12)?;
    let mut bench = Bench { space };
    bench.check_lines(&rt);
    Ok(())
}

fn check_window(rt: &impl Abort, bytes: &mut [u8; 12]) {
    let space = Window::new(bytes);
    let mut bench = Bench { space };
    bench.check_lines(rt);
}

/// Whether a slice is changed through windows over it.
fn slice_is_changed() -> bool {
    let mut bytes = [1, 2, 3, 4, 5];
    copy_in_slice(&mut bytes, 0, 3, 2);
    let copied = bytes == [1, 2, 3, 1, 2];
    blank_in_slice(&mut bytes, 1, 2);
    copied && bytes == [1, 0, 0, 1, 2]
}

#[test]
fn window_is_a_space_over_its_slice(rt: HostRuntime) {
    let mut bytes = [0; 12];
    check_window(&rt, &mut bytes);
    assert!(rt; bytes == LEFT && slice_is_changed());
}

/// A word that is set at a place, with the bytes of the region afterwards, or one that is read there.
#[derive(Clone, Copy, Debug)]
enum Word {
    Set(u32, u32, [u8; 12]),
    Read(u32, u32),
}

/// A word has its lowest byte first, at any place, and what stands beside it stays.
static WORDS: &[Word] = &[
    Set(4, 0x0403_0201, [9, 9, 9, 9, 1, 2, 3, 4, 9, 9, 9, 9]),
    Read(4, 0x0403_0201),
    // Across the begin of the one that was set.
    Read(2, 0x0201_0909),
    Set(7, 0xffff_fffe, [9, 9, 9, 9, 1, 2, 3, 254, 255, 255, 255, 9]),
    Read(7, 0xffff_fffe),
    // The last word.
    Set(8, 0, [9, 9, 9, 9, 1, 2, 3, 254, 0, 0, 0, 0]),
    Read(8, 0),
];

impl Bench<Region> {
    /// Whether a word is read, or leaves the bytes that it should and the count of twelve.
    fn word(&mut self, word: Word) -> bool {
        match word {
            Set(at, value, bytes) if is_inside(at, 4) => {
                self.space.set_word(at, value);
                self.has(&bytes, 12)
            }
            Read(at, value) if is_inside(at, 4) => self.space.word_at(at) == value,
            _ => false,
        }
    }

    /// Sets and reads all words.
    fn check_words(&mut self, rt: &impl Abort) {
        for word in WORDS {
            let right = self.word(*word);
            assert!(rt; right, "{word:?}");
        }
    }
}

#[test]
fn region_has_words(rt: HostRuntime) -> Result<(), Fail> {
    let mut space = Region::new(rt.alloc(), 12)?;
    space.fill(0, 12, 9);
    let mut bench = Bench { space };
    bench.check_words(&rt);
    Ok(())
}
