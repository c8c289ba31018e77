//! An object's bytes, lent to what is done to them.
ghost use Rattle.std.specs.Prelude.{◌≡◌, ◌<◌, ◌^◌, ℕ, All, List, length, None, Some, IfSome, IfNone, IsSomeAnd, option_map};
ghost use Rattle.w16_model.specs.Far.{after_write};
ghost use Rattle.w16_model.specs.Heap.{bytes_at};
ghost use Rattle.w16_model.specs.Handles as handles;
ghost use Rattle.w16_model.specs.Owned.{is_code};
ghost use Rattle.w16_region.specs.Bytes.{counted};
ghost use Rattle.w16_global.specs.Lent.{Lends};

use crate::global::Global16;
use std::alloc::Allocator;
use w16_region::{Space, Window, reveal_bytes};

/// Something that is done to an object's bytes, and to a state beside them. A loan is followed only where a call hands it on as the last thing that
/// it does ([`Global16::bytes_mut`]); so a caller whose work goes on after the loan hands it in.
///
/// `State` is what changes beside the bytes.
pub trait Work<State> {
    type Answer;

    /// When it may be done: the work, the state and the bytes.
    ghost may: { Self → State → List ℕ → Type 0 };

    /// What it does: the work, the state and the bytes before it, its answer, and the state and the bytes after it; and how many bytes counted
    /// as written before it, and after it. So what it writes is told also where it puts the old bytes back.
    ghost does: { Self → State → List ℕ → Self.Answer → State → List ℕ → ℕ → ℕ → Type 0 };

    /// Does it over a space of these bytes. There are as many after it as before it.
    fn work<S: Space>(&self, state: &mut State, space: &mut S) -> Self::Answer
        requires small { length (S.bytes space.old) < 2 ^ 32 }
        requires may { may self.now state.old (S.bytes space.old) }
        ensures long { length (S.bytes space.new) ≡ length (S.bytes space.old) }
        ensures loans { S.lenders space.new ≡ S.lenders space.old }
        ensures done { does self.now state.old (S.bytes space.old) result state.new (S.bytes space.new) (S.written space.old) (S.written space.new) };
}

/// Does a work over a slice, which is lent to it as a window whose count begins at 0.
pub(crate) fn work_over<T, W: Work<T>>(work: &W, state: &mut T, bytes: &mut [u8]) -> W::Answer
    requires small { length bytes.old < 2 ^ 32 }
    requires may { W.may work.now state.old bytes.old }
    ensures long { length bytes.new ≡ length bytes.old }
    ensures done { (count : ℕ) × W.does work.now state.old bytes.old result state.new bytes.new 0 count }
    ensures bytes { All (λ b. b < 256) bytes.new }
{
    let mut window = Window::new(bytes);
    let answer = work.work(state, &mut window);
    reveal_bytes(&window);
    answer
}

/// An object with bytes: its slot, how many they are, and whether it is code.
#[derive(Clone, Copy, Debug, PartialEq, Eq)]
pub struct Segment {
    pub slot: u16,
    pub size: u32,
    pub code: bool,
}

impl<A: Allocator + Copy> Global16<A> {
    /// The object whose first selector this is, if it has bytes.
    pub fn segment(&self, selector: u16) -> Option<Segment>
        ensures found { IfSome result (λ s. (handles.slot_of_selector self.now.handles selector ≡ Some s.slot) × (option_map length (bytes_at self.now.handles.heap s.slot) ≡ Some s.size)) }
        ensures code { IfSome result (λ s. s.code ≡ is_code self.now.handles s.slot) }
        ensures none { IfNone result ((slot : ℕ) → handles.slot_of_selector self.now.handles selector ≡ Some slot → bytes_at self.now.handles.heap slot ≡ None) }
    {
        let slot = self.slot_of_selector(selector)?;
        let size = self.objects.size(slot as u32)?;
        let code = self.is_code_at(slot);
        Some(Segment { slot, size, code })
    }

    /// Does a work on the bytes of a slot's object. Nothing else of the handles changes: no address, no order of use, no count of bytes moved.
    /// All bytes that are lent count as written.
    pub fn with_bytes<T, W: Work<T>>(&mut self, slot: u16, work: &W, state: &mut T) -> W::Answer
        requires { IsSomeAnd (bytes_at self.old.handles.heap slot) (λ bytes. W.may work.now state.old bytes) }
        ensures { (lent : Lends self.old.handles.heap slot (λ bytes after. (count : ℕ) × W.does work.now state.old bytes result state.new after 0 count))
            × (self.new ≡ record self.old {
              handles = record self.old.handles { heap = after_write self.old.handles.heap slot 0 lent.after };
              written = counted self.old.written (length lent.bytes);
            }) }
    {
        self.objects.with_bytes(slot as u32, work, state)
    }
}
