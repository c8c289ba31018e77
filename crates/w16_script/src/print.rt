//! Replies as text.
ghost use Rattle.std.specs.Prelude.{◌≡◌, ◌+◌, ◌*◌, ◌<◌, ◌≤◌, ◌++◌, [], ◌∷◌, length, OnOk, OnErr};
ghost use Rattle.std.specs.Io.KnownBytes.{Appends};
ghost use Rattle.hex.specs.Hex.{encode_lower};
ghost use Rattle.arrayvec.specs.ArrayVec.{array_vec_len};
ghost use Rattle.w16_loading.specs.Replies as replies;
ghost use Rattle.w16_kernel.specs.Runs.{reply_of};
ghost use Rattle.w16_script.specs.Written.{AppendsFront};
ghost use Rattle.w16_script.specs.Printed.{end_text, reply_text, error_text};

use crate::bytes::encode;
use crate::write::{write_few, write_whole};
use arrayvec::ArrayVec;
use std::io::{self, ErrorKind, Write};
use w16_kernel::{MOST_READ, Reply};
use w16_loading::FetchFault;
use w16_model::FarFault;

/// How many bytes are printed at once: all that a reply of the machine has.
const PIECE: usize = MOST_READ;

/// What stands before the digits of bytes.
const BYTES: &[u8; 6] = b"bytes ";

/// How long the line of a piece's bytes is at most.
pub const TEXT_ROOM: usize = BYTES.len() + 2 * PIECE + 1;

/// Room for the text of a reply.
pub type TextRoom = [u8; TEXT_ROOM];

/// Appends bytes for which there is room.
pub fn append<const N: usize>(text: &mut ArrayVec<u8, N>, bytes: &[u8])
    requires { array_vec_len text.old + length bytes.now ≤ N }
    ensures items { text.new.items ≡ text.old.items ++ bytes.now }
    ensures len { array_vec_len text.new ≡ array_vec_len text.old + length bytes.now }
{
    let _ = text.try_extend_from_slice(bytes);
}

/// Appends the digits of a word or a double word for which there is room.
#[tactic(auto, using(crate::proofs::PrintLemmas::hex_lengths))]
pub fn append_digits<const N: usize>(text: &mut ArrayVec<u8, N>, bytes: &[u8])
    requires few { length bytes.now ≤ 4 }
    requires room { array_vec_len text.old + 2 * length bytes.now ≤ N }
    ensures items { text.new.items ≡ text.old.items ++ encode_lower bytes.now }
    ensures len { array_vec_len text.new ≡ array_vec_len text.old + 2 * length bytes.now }
{
    let mut buffer = [0; 8];
    let digits = &mut buffer[..2 * bytes.len()];
    let _ = hex::encode_to_slice(bytes, digits);
    append(text, digits);
}

/// The digits of a piece.
fn digits_of<'a>(bytes: &[u8], room: &'a mut TextRoom) -> &'a [u8]
    requires few { length bytes.now ≤ PIECE }
    ensures { result.now ≡ encode_lower bytes.now }
{
    let digits = &mut room[..2 * bytes.len()];
    let _ = hex::encode_to_slice(bytes, digits);
    digits
}

/// The digits of the last piece of a line, and the line's LF.
fn last_digits<'a>(bytes: &[u8], room: &'a mut TextRoom) -> &'a [u8]
    requires few { length bytes.now ≤ PIECE }
    ensures { result.now ≡ encode_lower bytes.now ++ 10 ∷ [] }
{
    let end = 2 * bytes.len();
    let _ = hex::encode_to_slice(bytes, &mut room[..end]);
    room[end] = b'\n';
    &room[..end + 1]
}

/// The line of bytes that were read.
fn bytes_line<'a>(bytes: &[u8], room: &'a mut TextRoom) -> &'a [u8]
    requires some { 0 < length bytes.now }
    requires few { length bytes.now ≤ PIECE }
    ensures { result.now ≡ reply_text (replies.Reply.Bytes bytes.now) }
{
    let last = BYTES.len() + 2 * bytes.len();
    room[..BYTES.len()].copy_from_slice(BYTES);
    encode(bytes, &mut room[BYTES.len()..last]);
    room[last] = b'\n';
    &room[..last + 1]
}

/// Prints the digits of bytes, piece by piece, and an LF.
fn print_digits<W: Write>(
    writer: &mut W,
    bytes: &[u8],
    room: &mut TextRoom,
) -> Result<(), ErrorKind>
    ensures ok { OnOk result (Appends (W.contents writer.old) (W.contents writer.new) (encode_lower bytes.now ++ 10 ∷ [])) }
    ensures err { OnErr result (AppendsFront (W.contents writer.old) (W.contents writer.new) (encode_lower bytes.now ++ 10 ∷ [])) }
{
    let mut rest = bytes;
    'pieces: while rest.len() > PIECE {
        let (piece, behind) = rest.split_at(PIECE);
        write_whole(writer, digits_of(piece, room))?;
        rest = behind;
    }
    write_whole(writer, last_digits(rest, room))
}

/// Prints bytes that were read.
fn print_bytes<W: Write>(writer: &mut W, bytes: &[u8], room: &mut TextRoom) -> Result<(), ErrorKind>
    ensures ok { OnOk result (Appends (W.contents writer.old) (W.contents writer.new) (reply_text (replies.Reply.Bytes bytes.now))) }
    ensures err { OnErr result (AppendsFront (W.contents writer.old) (W.contents writer.new) (reply_text (replies.Reply.Bytes bytes.now))) }
{
    if bytes.is_empty() {
        return write_whole(writer, b"bytes\n");
    }
    if bytes.len() <= PIECE {
        return write_whole(writer, bytes_line(bytes, room));
    }
    write_whole(writer, BYTES)?;
    print_digits(writer, bytes, room)
}

/// A fault's line.
fn fault_line(fault: FarFault) -> &'static [u8]
    ensures { result.now ≡ reply_text (replies.Reply.Fault fault) }
{
    match fault {
        FarFault::BadSelector => b"fault selector\n",
        FarFault::ReadOnly => b"fault readonly\n",
        FarFault::NotPresent => b"fault notpresent\n",
        FarFault::Limit => b"fault limit\n",
    }
}

/// The line of a fetch's fault.
fn failure_line(fault: FetchFault) -> &'static [u8]
    ensures { result.now ≡ reply_text (replies.Reply.Failed fault) }
{
    match fault {
        FetchFault::NoRoom => b"fault room\n",
        FetchFault::Store => b"fault store\n",
        FetchFault::Damaged => b"fault damaged\n",
    }
}

/// Prints a reply as one line; for a walk that is the line after its items. It fails where the writer failed or took nothing, after a front of the line.
/// The room is for its text, so that the writer gets it at once.
pub fn write_reply<W: Write>(
    writer: &mut W,
    reply: &Reply<'_>,
    room: &mut TextRoom,
) -> Result<(), ErrorKind>
    ensures ok { OnOk result (Appends (W.contents writer.old) (W.contents writer.new) (reply_text (reply_of reply.now))) }
    ensures err { OnErr result (AppendsFront (W.contents writer.old) (W.contents writer.new) (reply_text (reply_of reply.now))) }
{
    match reply {
        Reply::Word(word) => {
            let mut text = [b'\n'; 5];
            let _ = hex::encode_to_slice(&word.to_be_bytes(), &mut text[..4]);
            write_few(writer, &text)
        }
        Reply::Dword(dword) => {
            let mut text = [b'\n'; 9];
            let _ = hex::encode_to_slice(&dword.to_be_bytes(), &mut text[..8]);
            write_few(writer, &text)
        }
        Reply::Bytes(bytes) => print_bytes(writer, bytes, room),
        Reply::Done => write_whole(writer, b"ok\n"),
        Reply::Fault(fault) => write_whole(writer, fault_line(*fault)),
        Reply::Failed(fault) => write_whole(writer, failure_line(*fault)),
        Reply::Walk(_) => print_end(writer),
    }
}

/// Prints the line after the items of a walk. It fails as `print_reply` does.
pub fn print_end<W: Write>(writer: &mut W) -> Result<(), ErrorKind>
    ensures ok { OnOk result (Appends (W.contents writer.old) (W.contents writer.new) end_text) }
    ensures err { OnErr result (AppendsFront (W.contents writer.old) (W.contents writer.new) end_text) }
{
    write_whole(writer, b"end\n")
}

/// Prints the reply to a bad line. It fails as `print_reply` does.
pub fn write_error<W: Write>(writer: &mut W) -> Result<(), ErrorKind>
    ensures ok { OnOk result (Appends (W.contents writer.old) (W.contents writer.new) error_text) }
    ensures err { OnErr result (AppendsFront (W.contents writer.old) (W.contents writer.new) error_text) }
{
    write_whole(writer, b"error syntax\n")
}

/// Prints a reply as one line; for a walk that is the line after its items. It fails where the writer failed or took nothing, after a front of the line.
pub fn print_reply<W: Write>(writer: &mut W, reply: &Reply<'_>) -> io::Result<()>
    ensures ok { OnOk result (Appends (W.contents writer.old) (W.contents writer.new) (reply_text (reply_of reply.now))) }
    ensures err { OnErr result (AppendsFront (W.contents writer.old) (W.contents writer.new) (reply_text (reply_of reply.now))) }
{
    let mut room = [0; TEXT_ROOM];
    match write_reply(writer, reply, &mut room) {
        Ok(()) => Ok(()),
        Err(kind) => Err(io::Error::from(kind)),
    }
}

/// Prints the reply to a bad line. It fails as `print_reply` does.
pub fn print_error<W: Write>(writer: &mut W) -> io::Result<()>
    ensures ok { OnOk result (Appends (W.contents writer.old) (W.contents writer.new) error_text) }
    ensures err { OnErr result (AppendsFront (W.contents writer.old) (W.contents writer.new) error_text) }
{
    match write_error(writer) {
        Ok(()) => Ok(()),
        Err(kind) => Err(io::Error::from(kind)),
    }
}
