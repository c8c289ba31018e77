//! The program's own run of a script, over a store, a reader and a writer in memory: what is replied, and said of bad lines and refused calls.
use crate::said::Said;
use std::alloc::Global;
use std::io::{BufWriter, Read, Result as IoResult};
use std::test::Fail;
use w16_command::run_script;
use w16_options::Options;
use w16_store::MemStore;

/// For a heap of 512 bytes and two selectors. Line 10 is bad by what its register has.
const SCRIPT: &str = ";
GlobalAlloc 2
r0 = GlobalAlloc 0x42 100
GlobalLock 0x99

r1 = GlobalLock r0
galloc 2 3
GlobalFree r0
GlobalAlloc 2 0xfffff
GlobalLock r1
Read r1 1000
Read 0x00100000 1
r1 =
GlobalUnlock r0
GlobalDiscard r0\r
GlobalReAlloc r0 0 0
GlobalAlloc 2 32
GlobalAlloc 2 32
LoadLibrary none
FreeLibrary 33
LocalAlloc 0 8
LocalInit 0x107 4 64
DS 0x107
LocalSize 6
LocalAlloc 2 8
LocalDiscard 2
LocalLock 2
LocalFree 2
LocalAlloc 2 0
LocalLock 6
Moved 1
LockResource 0x106";

const EXPLAINED: &str = "line 2: GlobalAlloc takes FLAGS SIZE
line 4: bad handle
line 7: no command has this name
line 8: locked
line 9: no room: at most 0x180 bytes could be free in a row
line 10: GlobalLock takes HANDLE
line 11: the last byte that the selector reaches is at offset 0x7f
line 12: no object has the selector
line 13: a command is missing
line 15: not discardable
line 16: a size of 0 needs 0x0002 and a discardable object without locks
line 18: no selector is free, or no room as the flags have it
line 19: no such file
line 20: no module has the handle
line 21: DS names no local heap
line 24: no local object has the name
line 26: not discardable
line 28: locked
line 30: the object has no bytes
line 31: Moved takes no arguments
line 32: no loaded resource, no room for its bytes, or 255 locks
";

const REPLIES: &str =
    "error syntax\n0106\n00000000\n01070000\nerror syntax\n0106\n0000\nerror syntax
fault limit\nfault selector\nerror syntax\n0000\n0000\n0000\n010e\n0000\n0002\n0000\n0000\n0001
ok\n0000\n0002\n0000\n0004\n0002\n0006\n0000\nerror syntax\n00000000\n";

/// A text that is read at most that many bytes at once.
#[derive(Drop)]
struct Pieces(&'static [u8], usize);

impl Read for Pieces {
    fn read(&mut self, buf: &mut [u8]) -> IoResult<usize> {
        let count = buf.len().min(self.1);
        self.0.read(&mut buf[..count])
    }
}

/// Whether a run, which reads at most that many bytes at once, ends well where there is room for all replies, and explains where it is asked
/// to; else it ends by the write fault.
fn ends_so(alloc: Global, explain: bool, at_once: usize, room: &mut [u8]) -> Result<bool, Fail> {
    let is_whole = room.len() == REPLIES.len();
    let said = Said::new(alloc);
    let options = Options {
        memory: 512,
        selectors: 2,
        dir: ".",
        script: None,
        explain,
    };
    let (store, reader) = (MemStore::new(alloc), Pieces(SCRIPT.as_bytes(), at_once));
    let writer = &mut BufWriter::new(alloc, room)?;
    match run_script(&said, alloc, &options, store, "script", reader, writer) {
        Ok(()) => Ok(is_whole && said.is(if explain { EXPLAINED } else { "" })),
        Err(fault) => Ok(!is_whole && fault.status() == 1),
    }
}

/// With room for all replies; for all except a part of the last one, which is written at the end alone; and for less.
#[test]
fn replies_are_written_and_refusals_explained(rt: HostRuntime) -> Result<(), Fail> {
    for (explain, at_once, count) in [
        (true, 1, 217),
        (true, 7, 217),
        (true, 100_000, 217),
        (false, 100_000, 217),
        (false, 100_000, 212),
        (true, 7, 20),
    ] {
        let mut room = vec![in rt.alloc(); 0u8; count]?;
        let ends = ends_so(rt.alloc(), explain, at_once, room.as_mut_slice())?;
        let written = REPLIES.as_bytes().starts_with(room.as_slice());
        assert!(rt; ends && written, "{at_once} at once, into {count} bytes");
    }
    Ok(())
}
