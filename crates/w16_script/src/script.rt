//! Runs of whole scripts.
ghost use Rattle.std.specs.Prelude.{◌≡◌, ◌<◌, ℕ, List, length, IfOk, IfErr};
ghost use Rattle.std.specs.Io.KnownBytes.{Consumes, IsAtEnd};
ghost use Rattle.w16_script.specs.Progress.{IsWithinLimits};
ghost use Rattle.w16_script.specs.Feeding.{FailsAt};
ghost use Rattle.w16_script.specs.Unfinished.{progress_of, state_of};
ghost use Rattle.w16_script.specs.Whole.{Finishes, Script, FailsLater, Fails};

use crate::feed::{Unfinished, feed};
use crate::outcome::{Ended, RunFault};
use crate::read::read_some;
use crate::running::run_line;
use crate::write::flush_writer;
use std::alloc::Allocator;
use std::io::{Read, Write};
use w16_kernel::Machine;

/// How many bytes are read at once.
const PIECE: usize = 65_536;

/// Runs the last line, if there is one.
fn finish<W: Write, K: Machine>(
    state: &mut Unfinished,
    writer: &mut W,
    kernel: &mut K,
) -> Result<Ended, RunFault>
    requires { IsWithinLimits (progress_of state.old) }
    ensures ok { IfOk result (λ counts. Finishes K.steps (W.contents writer.old) (progress_of state.old) (state_of state.old (K.world kernel.old)) (W.contents writer.new) (state_of state.new (K.world kernel.new)) counts) }
    ensures err { IfErr result (λ fault. (0 < length state.old.line.items)
        × FailsAt K.steps (W.contents writer.old) (state_of state.old (K.world kernel.old)) state.old.line.items fault (W.contents writer.new) (state_of state.new (K.world kernel.new))) }
{
    let line = state.line.as_slice();
    if line.is_empty() {
        return Ok(Ended {
            lines: state.lines,
            replies: state.replies,
        });
    }
    let replied = run_line(writer, kernel, &mut state.registers, &mut state.rooms, line)?;
    Ok(Ended {
        lines: state.lines + 1,
        replies: state.replies + u32::from(replied),
    })
}

/// Reads a script by pieces of the buffer's length, and runs it. Before each read the writer is flushed, so that
/// a host that waits for a reply before it writes the next line gets it.
fn run_over<R: Read, W: Write, K: Machine>(
    reader: &mut R,
    writer: &mut W,
    kernel: &mut K,
    buffer: &mut [u8],
) -> Result<Ended, RunFault>
    requires { length buffer.old ≡ PIECE }
    ensures ok { IfOk result (λ counts. (text : List ℕ) × Consumes (R.remaining reader.old) (R.remaining reader.new) text × IsAtEnd (R.remaining reader.new)
        × Script K.steps (W.contents writer.old) (K.world kernel.old) text (W.contents writer.new) (K.world kernel.new) counts) }
    ensures err { IfErr result (λ fault. (text : List ℕ) × Consumes (R.remaining reader.old) (R.remaining reader.new) text
        × FailsLater K.steps (R.remaining reader.new) (W.contents writer.old) (K.world kernel.old) text fault (W.contents writer.new) (K.world kernel.new)) }
{
    let mut state = Unfinished::new();
    'pieces: loop {
        if flush_writer(writer).is_err() {
            return Err(RunFault::Write);
        }
        let count = match read_some(reader, buffer) {
            Ok(count) => count,
            Err(_) => return Err(RunFault::Read),
        };
        if count == 0 {
            return finish(&mut state, writer, kernel);
        }
        feed(&mut state, writer, kernel, &buffer[..count])?;
    }
}

/// Reads a script to its end, runs each line on the machine, and writes its replies and nothing else. Its
/// registers begin as 0. It takes memory at its start alone, and reads by pieces of 64 KiB at most. Before each
/// read it flushes the writer, so that a host may wait for a line's reply before it writes the next. At the end
/// nothing is flushed. What its lines write through far pointers reads back.
///
/// `RunFault` says when each fault comes. Where the reader or the writer doesn't tell its bytes, nothing is
/// claimed of them.
pub fn run<R: Read, W: Write, K: Machine, A: Allocator>(
    alloc: A,
    reader: &mut R,
    writer: &mut W,
    kernel: &mut K,
) -> Result<Ended, RunFault>
    ensures ok { IfOk result (λ counts. (text : List ℕ) × Consumes (R.remaining reader.old) (R.remaining reader.new) text × IsAtEnd (R.remaining reader.new)
        × Script K.steps (W.contents writer.old) (K.world kernel.old) text (W.contents writer.new) (K.world kernel.new) counts) }
    ensures err { IfErr result (λ fault. (text : List ℕ) × Consumes (R.remaining reader.old) (R.remaining reader.new) text
        × Fails K.steps (R.remaining reader.new) (W.contents writer.old) (K.world kernel.old) text fault (W.contents writer.new) (K.world kernel.new)) }
{
    let Ok(mut buffer) = vec![in alloc; 0u8; PIECE] else {
        return Err(RunFault::Memory);
    };
    run_over(reader, writer, kernel, buffer.as_mut_slice())
}
