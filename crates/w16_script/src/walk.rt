//! Walks of the heap as text.
ghost use Rattle.std.specs.Prelude.{◌≡◌, ◌^◌, ◌<◌, ◌≤◌, ◌++◌, List, length, OnOk, OnErr, IfOk, IfSome, Some};
ghost use Rattle.std.specs.Io.KnownBytes.{Appends};
ghost use Rattle.arrayvec.specs.ArrayVec.{array_vec_len};
ghost use Rattle.w16_machine.specs.Law.{IsWorldWalk};
ghost use Rattle.w16_script.specs.Written.{AppendsFront};
ghost use Rattle.w16_script.specs.Printed.{kind_text, owner_text, item_text, walk_text};

use crate::print::{append, append_digits, print_end};
use crate::write::write_whole;
use arrayvec::ArrayVec;
use std::io::{self, ErrorKind, Write};
use w16_kernel::Machine;
use w16_model::{Item, Kind, Owner};

/// An item's line: the longest has two double words, a handle, `discardable`, a lock count of three digits, four spaces and an LF.
type ItemLine = ArrayVec<u8, 39>;

/// The name of a kind.
fn kind_name(kind: Kind) -> &'static [u8]
    ensures name { result.now ≡ kind_text kind }
    ensures short { length result.now ≤ 11 }
{
    match kind {
        Kind::Fixed => b"fixed",
        Kind::Moveable => b"moveable",
        Kind::Discardable => b"discardable",
    }
}

/// Appends what a walk says of an object. An error is that there was no room.
fn append_owner(line: &mut ItemLine, owner: Owner) -> io::Result<()>
    requires name { owner.name < 2 ^ 16 }
    requires room { array_vec_len line.old ≤ 18 }
    ensures ok { OnOk result (line.new.items ≡ line.old.items ++ owner_text (Some owner)) }
    ensures short { OnOk result (array_vec_len line.new ≤ 38) }
{
    append_digits(line, &(owner.name as u16).to_be_bytes());
    append(line, b" ");
    append(line, kind_name(owner.kind));
    append(line, b" ");
    write!(line, "{}", owner.locks)
}

/// An item's line.
fn item_line(item: &Item) -> io::Result<ItemLine>
    requires { IfSome item.now.owner (λ owner. owner.name < 2 ^ 16) }
    ensures { IfOk result (λ line. line.items ≡ item_text item.now) }
{
    let mut line = ItemLine::new();
    append_digits(&mut line, &item.at.to_be_bytes());
    append(&mut line, b" ");
    append_digits(&mut line, &item.size.to_be_bytes());
    append(&mut line, b" ");
    match item.owner {
        Some(owner) => append_owner(&mut line, owner)?,
        None => append(&mut line, b"free"),
    }
    append(&mut line, b"\n");
    Ok(line)
}

/// Prints an item as one line. It fails as `print_reply` does.
#[tactic(auto, using(crate::proofs::WalkLemmas::AppendsFront_none, crate::proofs::WalkLemmas::item_filled))]
fn print_item<W: Write>(writer: &mut W, item: &Item) -> Result<(), ErrorKind>
    requires { IfSome item.now.owner (λ owner. owner.name < 2 ^ 16) }
    ensures ok { OnOk result (Appends (W.contents writer.old) (W.contents writer.new) (item_text item.now)) }
    ensures err { OnErr result (AppendsFront (W.contents writer.old) (W.contents writer.new) (item_text item.now)) }
{
    match item_line(item) {
        Ok(line) => write_whole(writer, line.as_slice()),
        Err(error) => Err(error.kind()),
    }
}

/// Prints the walk of the heap: a line for each item, and `end`. It fails as `print_reply` does, after a front of these lines.
pub fn print_walk<W: Write, K: Machine>(writer: &mut W, kernel: &K) -> Result<(), ErrorKind>
    ensures ok { OnOk result ((items : List Item) × IsWorldWalk (K.world kernel.now) items × Appends (W.contents writer.old) (W.contents writer.new) (walk_text items)) }
    ensures err { OnErr result ((items : List Item) × IsWorldWalk (K.world kernel.now) items × AppendsFront (W.contents writer.old) (W.contents writer.new) (walk_text items)) }
{
    let mut from = 0;
    'items: while let Some(item) = kernel.walk_from(from) {
        print_item(writer, &item)?;
        from = item.at + item.size;
    }
    print_end(writer)
}
