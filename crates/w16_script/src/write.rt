//! Writes whose failure leaves a known front, and flushes.
ghost use Rattle.std.specs.Prelude.{◌<◌, ◌≤◌, OnOk, OnErr, IfOk, take, length};
ghost use Rattle.std.specs.Io.KnownBytes.{Appends, Keeps};
ghost use Rattle.w16_script.specs.Written.{AppendsFront};

use std::io::{self, Error, ErrorKind, Write};

/// One write. An interruption has written nothing, and is no fault.
#[inline(always)]
fn write_some<W: Write>(writer: &mut W, bytes: &[u8]) -> Result<usize, ErrorKind>
    ensures ok { IfOk result (λ n. (n ≤ length bytes.now) × Appends (W.contents writer.old) (W.contents writer.new) (take n bytes.now)) }
    ensures err { OnErr result (Keeps (W.contents writer.old) (W.contents writer.new)) }
{
    match writer.write(bytes) {
        Ok(0) => Err(ErrorKind::WriteZero),
        Ok(count) => Ok(count),
        Err(error) => match error.kind() {
            ErrorKind::Interrupted => Ok(0),
            kind => Err(kind),
        },
    }
}

/// Writes all the bytes, or fails after a front of them: where the writer failed, or took nothing.
/// Of the writer's error only the kind is kept: an `io::Error` is large, and each `Result` has room for one.
#[tactic(auto, using(crate::proofs::WriteLemmas::AppendsFront_take))]
pub fn write_whole<W: Write>(writer: &mut W, bytes: &[u8]) -> Result<(), ErrorKind>
    ensures ok { OnOk result (Appends (W.contents writer.old) (W.contents writer.new) bytes.now) }
    ensures err { OnErr result (AppendsFront (W.contents writer.old) (W.contents writer.new) bytes.now) }
{
    let mut at = 0;
    'tries: for _ in 0..u64::MAX {
        if at == bytes.len() {
            return Ok(());
        }
        let count = write_some(writer, &bytes[at..])?;
        at += count;
    }
    if at == bytes.len() {
        return Ok(());
    }
    Err(ErrorKind::TimedOut)
}

/// Writes few bytes as `write_whole` does. They mostly go at once.
#[inline(always)]
pub fn write_few<W: Write>(writer: &mut W, bytes: &[u8]) -> Result<(), ErrorKind>
    requires { 0 < length bytes.now }
    ensures ok { OnOk result (Appends (W.contents writer.old) (W.contents writer.new) bytes.now) }
    ensures err { OnErr result (AppendsFront (W.contents writer.old) (W.contents writer.new) bytes.now) }
{
    let count = write_some(writer, bytes)?;
    if count == bytes.len() {
        return Ok(());
    }
    write_whole(writer, &bytes[count..])
}

/// Flushes the writer, tried again where it was interrupted. What it holds stays.
pub fn flush_writer<W: Write>(writer: &mut W) -> io::Result<()>
    ensures { Keeps (W.contents writer.old) (W.contents writer.new) }
{
    'tries: for _ in 0..u64::MAX {
        match writer.flush() {
            Ok(()) => return Ok(()),
            Err(error) => {
                if error.kind() != ErrorKind::Interrupted {
                    return Err(error);
                }
            }
        }
    }
    Err(Error::from(ErrorKind::TimedOut))
}
