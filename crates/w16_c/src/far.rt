//! Bytes after far pointers, in buffers that the caller lends.
ghost use Rattle.std.specs.Prelude.{◌<◌, ◌≤◌, length};
ghost use Rattle.w16_loading.specs.Replies as replies;
ghost use Rattle.w16_model.specs.Commands as commands;
ghost use Rattle.w16_kernel.specs.Runs.{command_of};
ghost use Rattle.w16_kernel.specs.declared.call.Call.TheVariants as calls;
ghost use Rattle.w16_c.specs.Makes.{FarCalls, Stays, AsksTooMuch};
ghost use Rattle.w16_loading.specs.Families.AnyCommand.{any};

use crate::asked::{done, written};
use crate::held::Held;
use crate::life::{put_back, taken};
use crate::status::{BAD_SIZE, DONE, NO_MACHINE};
use std::alloc::Global;
use w16_kernel::{Call, MOST_FILLED};

/// `Read`: as many bytes as the buffer has. A fault leaves the buffer as it was.
#[unsafe(no_mangle)]
pub extern "C" fn w16_read(alloc: Global, held: &mut Held, pointer: u32, into: &mut [u8]) -> u8
    ensures read { FarCalls held.old (any _ (commands.Command.Read pointer (length into.old))) result (replies.Reply.Bytes into.new) held.new }
    ensures kept { Stays result into.old into.new }
{
    let Some(mut kernel) = taken(held, alloc) else {
        return NO_MACHINE;
    };
    kernel.reveal_world();
    match kernel.find(pointer, into.len(), false) {
        Ok(place) => {
            into.copy_from_slice(kernel.bytes(place));
            put_back(held, alloc, kernel);
            DONE
        }
        Err(reply) => {
            put_back(held, alloc, kernel);
            written(reply)
        }
    }
}

/// `Write`: the bytes of a buffer, as many as it has.
#[unsafe(no_mangle)]
pub extern "C" fn w16_write(alloc: Global, held: &mut Held, pointer: u32, bytes: &[u8]) -> u8
    ensures { FarCalls held.old (any _ (commands.Command.Write pointer bytes.now)) result replies.Reply.Done held.new }
{
    done(alloc, held, &Call::Write { pointer, bytes })
}

/// `Fill`: at most 65,536 times the same byte; `BAD_SIZE` for more.
#[unsafe(no_mangle)]
pub extern "C" fn w16_fill(alloc: Global, held: &mut Held, pointer: u32, count: u32, byte: u8) -> u8
    ensures filled { count ≤ MOST_FILLED → FarCalls held.old (command_of (calls.Fill pointer count byte)) result replies.Reply.Done held.new }
    ensures long { MOST_FILLED < count → AsksTooMuch held.old result held.new }
{
    if count > MOST_FILLED {
        return BAD_SIZE;
    }
    let call = Call::Fill {
        pointer,
        count,
        byte,
    };
    done(alloc, held, &call)
}
