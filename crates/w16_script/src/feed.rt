//! Bytes of a script, in pieces.
ghost use Rattle.std.specs.Prelude.{◌≡◌, ◌≢◌, ◌+◌, ◌<◌, ◌≤◌, [], ◌∷◌, ◌++◌, length, IsTrue, IsFalse, OnOk, OnErr, IfOk, IfErr, IfSome, IfNone, if◌then◌else◌};
ghost use Rattle.std.specs.Io.BufRead.{strip_last};
ghost use Rattle.w16_script.specs.Text.{ended, HasNoLf};
ghost use Rattle.w16_script.specs.Progress.{with_bytes, IsWithinLimits, Overflows, room_of};
ghost use Rattle.w16_script.specs.Feeding.{Feeds, FailsAt, Stops};
ghost use Rattle.w16_script.specs.Unfinished.{progress_of, state_of};

use crate::outcome::RunFault;
use crate::registers::Registers;
use crate::running::{Rooms, run_line};
use arrayvec::ArrayVec;
use memchr::memchr;
use std::io::Write;
use w16_kernel::Machine;

/// How many bytes a line may have before its LF.
const LONGEST_LINE: usize = 4096;

/// How many lines may end.
const MOST_LINES: u32 = 1_000_000;

/// What is known between two bytes: the line so far, how many lines ended before it, how many of those had a
/// reply, and the registers. The rooms are lent to each line, and what they have is never read again.
#[derive(Drop)]
pub struct Unfinished {
    pub line: ArrayVec<u8, LONGEST_LINE>,
    pub lines: u32,
    pub replies: u32,
    pub registers: Registers,
    pub rooms: Rooms,
}

impl Unfinished {
    ghost use Rattle.w16_script.specs.Registers.{zeros};
    ghost use Rattle.w16_script.specs.Progress.{fresh};

    /// Before the first byte.
    pub fn new() -> Self
        ensures progress { progress_of result ≡ fresh }
        ensures registers { result.registers ≡ zeros }
    {
        Unfinished {
            line: ArrayVec::new(),
            lines: 0,
            replies: 0,
            registers: Registers::new(),
            rooms: Rooms::new(),
        }
    }

    /// Appends bytes to the pending line, all of them, or fails with `TooLong`.
    #[tactic(auto, using(crate::proofs::LimitLemmas::overflows))]
    fn hold(&mut self, bytes: &[u8]) -> Result<(), RunFault>
        requires fits { IsWithinLimits (progress_of self.old) }
        requires one_line { HasNoLf bytes.now }
        ensures ok { OnOk result (progress_of self.new ≡ with_bytes (progress_of self.old) bytes.now) }
        ensures registers { self.new.registers ≡ self.old.registers }
        ensures within { OnOk result (IsWithinLimits (progress_of self.new)) }
        ensures err { IfErr result (λ fault. (fault ≡ RunFault.TooLong) × Overflows (progress_of self.old) bytes.now) }
    {
        if bytes.is_empty() {
            return Ok(());
        }
        if self.is_full() || self.line.try_extend_from_slice(bytes).is_err() {
            return Err(RunFault::TooLong);
        }
        Ok(())
    }

    /// Whether no line may end any more.
    fn is_full(&self) -> bool
        ensures full { IsTrue result → self.now.lines ≡ MOST_LINES }
        ensures more { IsFalse result → self.now.lines ≢ MOST_LINES }
    {
        self.lines == MOST_LINES
    }

    /// Whether a line may be run where it stands: none is unfinished, and it isn't too long.
    fn takes_whole(&self, line: &[u8]) -> bool
        ensures { IsTrue result → (self.now.line.items ≡ []) × (length line.now ≤ LONGEST_LINE) }
    {
        self.line.is_empty() && line.len() <= LONGEST_LINE
    }

    /// Counts a line that ended, and its reply, if it had one.
    fn count_line(&mut self, replied: bool)
        requires fits { IsWithinLimits (progress_of self.old) }
        requires few { self.old.lines < MOST_LINES }
        ensures progress { progress_of self.new ≡ record { line = (progress_of self.old).line; lines = self.old.lines + 1; replies = self.old.replies + (if replied then 1 else 0) } }
        ensures registers { self.new.registers ≡ self.old.registers }
    {
        self.lines += 1;
        if replied {
            self.replies += 1;
        }
    }
}

/// The line up to the first LF, and what stands after it.
fn split_line(text: &[u8]) -> Option<(&[u8], &[u8])>
    ensures some { IfSome result (λ split. text.now ≡ ended split.0.now ++ split.1.now) }
    ensures one_line { IfSome result (λ split. HasNoLf split.0.now) }
    ensures none { IfNone result (HasNoLf text.now) }
{
    match memchr(b'\n', text) {
        Some(at) => Some((&text[..at], &text[at + 1..])),
        None => None,
    }
}

/// The line without a CR at its end.
fn without_cr(line: &[u8]) -> &[u8]
    ensures { result.now ≡ strip_last 13 line.now }
{
    match line {
        [front @ .., b'\r'] => front,
        _ => line,
    }
}

/// Runs the line that an LF ends.
fn end_line<W: Write, K: Machine>(
    state: &mut Unfinished,
    writer: &mut W,
    kernel: &mut K,
) -> Result<(), RunFault>
    requires fits { IsWithinLimits (progress_of state.old) }
    requires few { state.old.lines < MOST_LINES }
    ensures ok { OnOk result (Feeds K.steps (W.contents writer.old) (progress_of state.old) (state_of state.old (K.world kernel.old)) (10 ∷ []) (W.contents writer.new) (progress_of state.new) (state_of state.new (K.world kernel.new))) }
    ensures within { OnOk result (IsWithinLimits (progress_of state.new)) }
    ensures room { OnOk result (room_of (progress_of state.new) < room_of (progress_of state.old)) }
    ensures err { IfErr result (λ fault. FailsAt K.steps (W.contents writer.old) (state_of state.old (K.world kernel.old)) (strip_last 13 state.old.line.items) fault (W.contents writer.new) (state_of state.new (K.world kernel.new))) }
{
    let line = without_cr(state.line.as_slice());
    let replied = run_line(writer, kernel, &mut state.registers, &mut state.rooms, line)?;
    state.line.clear();
    state.count_line(replied);
    Ok(())
}

/// Runs a line that an LF ends, where it stands: to hold it first would copy it, and clear it afterwards.
fn run_whole<W: Write, K: Machine>(
    state: &mut Unfinished,
    writer: &mut W,
    kernel: &mut K,
    line: &[u8],
) -> Result<(), RunFault>
    requires fits { IsWithinLimits (progress_of state.old) }
    requires few { state.old.lines < MOST_LINES }
    requires nothing { state.old.line.items ≡ [] }
    requires one_line { HasNoLf line.now }
    requires short { length line.now ≤ LONGEST_LINE }
    ensures ok { OnOk result (Feeds K.steps (W.contents writer.old) (progress_of state.old) (state_of state.old (K.world kernel.old)) (ended line.now) (W.contents writer.new) (progress_of state.new) (state_of state.new (K.world kernel.new))) }
    ensures within { OnOk result (IsWithinLimits (progress_of state.new)) }
    ensures room { OnOk result (room_of (progress_of state.new) + length (ended line.now) ≤ room_of (progress_of state.old)) }
    ensures err { IfErr result (λ fault. FailsAt K.steps (W.contents writer.old) (state_of state.old (K.world kernel.old)) (strip_last 13 line.now) fault (W.contents writer.new) (state_of state.new (K.world kernel.new))) }
{
    let text = without_cr(line);
    let replied = run_line(writer, kernel, &mut state.registers, &mut state.rooms, text)?;
    state.count_line(replied);
    Ok(())
}

/// Takes the bytes of a line and the LF that ends it, and runs it.
fn take_line<W: Write, K: Machine>(
    state: &mut Unfinished,
    writer: &mut W,
    kernel: &mut K,
    line: &[u8],
) -> Result<(), RunFault>
    requires fits { IsWithinLimits (progress_of state.old) }
    requires one_line { HasNoLf line.now }
    ensures ok { OnOk result (Feeds K.steps (W.contents writer.old) (progress_of state.old) (state_of state.old (K.world kernel.old)) (ended line.now) (W.contents writer.new) (progress_of state.new) (state_of state.new (K.world kernel.new))) }
    ensures within { OnOk result (IsWithinLimits (progress_of state.new)) }
    ensures room { OnOk result (room_of (progress_of state.new) + length (ended line.now) ≤ room_of (progress_of state.old)) }
    ensures err { IfErr result (λ fault. Stops K.steps (W.contents writer.old) (progress_of state.old) (state_of state.old (K.world kernel.old)) (ended line.now) fault (W.contents writer.new) (state_of state.new (K.world kernel.new))) }
{
    if state.is_full() {
        return Err(RunFault::TooLong);
    }
    if state.takes_whole(line) {
        return run_whole(state, writer, kernel, line);
    }
    state.hold(line)?;
    end_line(state, writer, kernel)
}

/// Takes a piece of the script, and runs the lines that end in it.
pub fn feed<W: Write, K: Machine>(
    state: &mut Unfinished,
    writer: &mut W,
    kernel: &mut K,
    piece: &[u8],
) -> Result<(), RunFault>
    requires { IsWithinLimits (progress_of state.old) }
    ensures ok { OnOk result (Feeds K.steps (W.contents writer.old) (progress_of state.old) (state_of state.old (K.world kernel.old)) piece.now (W.contents writer.new) (progress_of state.new) (state_of state.new (K.world kernel.new))) }
    ensures within { OnOk result (IsWithinLimits (progress_of state.new)) }
    ensures room { OnOk result (room_of (progress_of state.new) + length piece.now ≤ room_of (progress_of state.old)) }
    ensures err { IfErr result (λ fault. Stops K.steps (W.contents writer.old) (progress_of state.old) (state_of state.old (K.world kernel.old)) piece.now fault (W.contents writer.new) (state_of state.new (K.world kernel.new))) }
{
    let mut rest = piece;
    'lines: while let Some((line, behind)) = split_line(rest) {
        take_line(state, writer, kernel, line)?;
        rest = behind;
    }
    state.hold(rest)
}
