//! One line of a script, and its reply.

use crate::fault::Fault;
use w16_kernel::{MOST_READ, Machine, Reply};
use w16_script::{Line, MOST_BYTES, Registers, print_error, print_reply, read_line};

/// Room for one line: the bytes that it writes, and those that it reads.
#[derive(Drop)]
pub struct Rooms {
    written: [u8; MOST_BYTES],
    read: [u8; MOST_READ],
}

impl Rooms {
    pub fn new() -> Self {
        Rooms {
            written: [0; MOST_BYTES],
            read: [0; MOST_READ],
        }
    }
}

/// Puts a reply's text into the room for it, and answers whether it is a walk's.
fn put_reply(text: &mut Vec<u8>, reply: &Reply<'_>) -> Result<bool, Fault> {
    match print_reply(text, reply) {
        Ok(()) => Ok(matches!(reply, Reply::Walk(_))),
        Err(_) => Err(Fault::Memory),
    }
}

/// Runs a line, and appends its reply. Answers whether it was a walk; none where the line has no reply.
pub fn run_line<K: Machine>(
    kernel: &mut K,
    registers: &mut Registers,
    rooms: &mut Rooms,
    line: &[u8],
    text: &mut Vec<u8>,
) -> Result<Option<bool>, Fault> {
    match read_line(line, registers, &mut rooms.written) {
        Line::Silent => Ok(None),
        Line::Bad => match print_error(text) {
            Ok(()) => Ok(Some(false)),
            Err(_) => Err(Fault::Memory),
        },
        Line::Command { target, call } => match kernel.call(&call, &mut rooms.read) {
            Ok(reply) => {
                registers.store(target, &reply);
                match put_reply(text, &reply) {
                    Ok(walked) => Ok(Some(walked)),
                    Err(fault) => Err(fault),
                }
            }
            Err(_) => Err(Fault::Memory),
        },
    }
}
