//! One line of a script.
ghost use Rattle.std.specs.Prelude.{◌≡◌, ℕ, List, [], ◌∷◌, IfOk, IfErr, OnOk, OnErr};
ghost use Rattle.std.specs.Io.KnownBytes.{Appends};
ghost use Rattle.w16_kernel.specs.Runs.{reply_of};
ghost use Rattle.w16_script.specs.State.{state_with};
ghost use Rattle.w16_script.specs.Output.{Shows, RunsLines, has_reply};
ghost use Rattle.w16_script.specs.Written.{AppendsFront};
ghost use Rattle.w16_script.specs.Feeding.{FailsAt};

use crate::bytes::MOST_BYTES;
use crate::line::{Line, read_line};
use crate::outcome::RunFault;
use crate::print::{TEXT_ROOM, TextRoom, write_error, write_reply};
use crate::registers::Registers;
use crate::walk::print_walk;
use std::io::{ErrorKind, Write};
use w16_kernel::{MOST_READ, Machine, Reply};

/// Room for the bytes of one line: those that it writes, those that it reads, and those of its reply's text.
#[derive(Drop)]
pub struct Rooms {
    written: [u8; MOST_BYTES],
    read: [u8; MOST_READ],
    text: TextRoom,
}

impl Rooms {
    pub fn new() -> Self {
        Rooms {
            written: [0; MOST_BYTES],
            read: [0; MOST_READ],
            text: [0; TEXT_ROOM],
        }
    }
}

/// Prints what is shown for a reply, in the world that its command left.
fn print_shown<W: Write, K: Machine>(
    writer: &mut W,
    kernel: &K,
    reply: &Reply<'_>,
    room: &mut TextRoom,
) -> Result<(), ErrorKind>
    ensures ok { OnOk result ((output : List ℕ) × Shows (K.world kernel.now) (reply_of reply.now) output × Appends (W.contents writer.old) (W.contents writer.new) output) }
    ensures err { OnErr result ((output : List ℕ) × Shows (K.world kernel.now) (reply_of reply.now) output × AppendsFront (W.contents writer.old) (W.contents writer.new) output) }
{
    match reply {
        Reply::Walk(_) => print_walk(writer, kernel),
        _ => write_reply(writer, reply, room),
    }
}

/// Runs a line, stores its reply where it says so, and says whether it has one.
pub fn run_line<W: Write, K: Machine>(
    writer: &mut W,
    kernel: &mut K,
    registers: &mut Registers,
    rooms: &mut Rooms,
    line: &[u8],
) -> Result<bool, RunFault>
    ensures ok { OnOk result (RunsLines K.steps (W.contents writer.old) (state_with (K.world kernel.old) registers.old) (line.now ∷ []) (W.contents writer.new) (state_with (K.world kernel.new) registers.new)) }
    ensures replied { IfOk result (λ replied. replied ≡ has_reply line.now) }
    ensures err { IfErr result (λ fault. FailsAt K.steps (W.contents writer.old) (state_with (K.world kernel.old) registers.old) line.now fault (W.contents writer.new) (state_with (K.world kernel.new) registers.new)) }
{
    match read_line(line, registers, &mut rooms.written) {
        Line::Silent => Ok(false),
        Line::Bad => match write_error(writer) {
            Ok(()) => Ok(true),
            Err(_) => Err(RunFault::Write),
        },
        Line::Command { target, call } => match kernel.call(&call, &mut rooms.read) {
            Ok(reply) => {
                registers.store(target, &reply);
                match print_shown(writer, kernel, &reply, &mut rooms.text) {
                    Ok(()) => Ok(true),
                    Err(_) => Err(RunFault::Write),
                }
            }
            Err(_) => Err(RunFault::Memory),
        },
    }
}
