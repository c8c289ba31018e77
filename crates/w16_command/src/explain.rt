//! Runs that say why: a reader and a machine that pass on, and note lines and replies.
ghost use Rattle.std.specs.Prelude.{◌≡◌};
ghost use Rattle.w16_kernel.specs.Parts.{KernelStep};

use crate::lines::Lines;
use crate::reason::reason;
use std::alloc::AllocError;
use std::cell::RefCell;
use std::io::{Error, Read, Result as IoResult};
use w16_kernel::{Call, Kernel, MOST_READ, Machine, Reply, Why};
use w16_model::{FarFault, Item};
use w16_store::Store;

/// The reader of a script. It keeps why its last failed read failed, and notes what it reads, if that is asked for.
#[derive(Drop)]
pub struct Source<'a, R: Read + Drop, E: Eprint> {
    rt: &'a E,
    reader: R,
    lines: Option<&'a RefCell<Lines>>,
    pub fault: Error,
}

impl<'a, R: Read + Drop, E: Eprint> Source<'a, R, E> {
    pub fn new(rt: &'a E, reader: R, lines: Option<&'a RefCell<Lines>>) -> Self
        ensures { result.reader ≡ reader }
    {
        let fault = Error::other("can't be read");
        Source {
            rt,
            reader,
            lines,
            fault,
        }
    }
}

/// The machine of a kernel, which says on standard error why a call is refused.
#[derive(Drop)]
pub struct NotedMachine<'a, S: Store + Drop, E: Eprint> {
    pub kernel: Kernel<S>,
    pub lines: &'a RefCell<Lines>,
    pub rt: &'a E,
}

/// Notes bytes that were read.
fn note(rt: &impl Eprint, lines: Option<&RefCell<Lines>>, bytes: &[u8]) {
    if let Some(lines) = lines {
        if let Ok(mut lines) = lines.try_borrow_mut() {
            lines.take(rt, bytes);
        }
    }
}

/// Notes a reply. The number of its line, if that is known.
fn note_reply(rt: &impl Eprint, lines: &RefCell<Lines>, reply: &Reply<'_>) -> Option<u32> {
    match lines.try_borrow_mut() {
        Ok(mut lines) => lines.answer(rt, reply),
        Err(_) => None,
    }
}

/// Says why a call was refused, if it was.
fn explain<S: Store + Drop>(
    rt: &impl Eprint,
    kernel: &mut Kernel<S>,
    number: u32,
    call: &Call<'_>,
    why: Option<Why>,
    reply: &Reply<'_>,
)
    ensures { kernel.new ≡ kernel.old }
{
    let _ = match (reason(call, why, reply), *call, *reply, why) {
        (Some(reason), _, _, _) => eprintln!(rt; "line {number}: {reason}"),
        (_, Call::GlobalAlloc { size, .. }, Reply::Word(0), _) => match kernel.lacks_room(size) {
            Some(most) => {
                eprintln!(rt;
                    "line {number}: no room: at most {most:#x} bytes could be free in a row"
                )
            }
            None => eprintln!(rt;
                "line {number}: no selector is free, or no room as the flags have it"
            ),
        },
        (_, _, Reply::Fault(FarFault::Limit), Some(Why::Limit(last))) => {
            eprintln!(rt;
                "line {number}: the last byte that the selector reaches is at offset {last:#x}"
            )
        }
        _ => Ok(()),
    };
}

impl<R: Read + Drop, E: Eprint> Read for Source<'_, R, E> {
    ghost remaining = { λ source. R.remaining source.reader };

    fn read(&mut self, buf: &mut [u8]) -> IoResult<usize> {
        match self.reader.read(buf) {
            Ok(count) => {
                note(self.rt, self.lines, &buf[..count]);
                Ok(count)
            }
            Err(error) => {
                self.fault = error;
                Err(error)
            }
        }
    }
}

impl<S: Store + Drop, E: Eprint> Machine for NotedMachine<'_, S, E> {
    ghost world = { λ noted. noted.kernel };

    ghost steps = { KernelStep S.is_honest };

    fn call<'r>(
        &mut self,
        call: &Call<'_>,
        room: &'r mut [u8; MOST_READ],
    ) -> Result<Reply<'r>, AllocError> {
        let why = self.kernel.why(call);
        let reply = self.kernel.call(call, room)?;
        if let Some(number) = note_reply(self.rt, self.lines, &reply) {
            explain(self.rt, &mut self.kernel, number, call, why, &reply);
        }
        Ok(reply)
    }

    fn walk_from(&self, from: u32) -> Option<Item> {
        self.kernel.walk_from(from)
    }
}
