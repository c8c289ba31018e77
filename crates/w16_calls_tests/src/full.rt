//! The last entry of a local heap and the last selector, and what is refused after them.

use std::alloc::{AllocError, Global};
use std::test::Fail;
use w16_play::machine::Machine;
use w16_store::MemStore;

/// A text, that many times.
fn append_times(text: &mut Vec<u8>, part: &[u8], times: u32) -> Result<(), AllocError> {
    for _ in 0..times {
        text.extend_from_slice(part)?;
    }
    Ok(())
}

/// The text of parts one after another, each that many times.
fn joined(alloc: Global, parts: &[(&[u8], u32)]) -> Result<Vec<u8>, AllocError> {
    let mut text = Vec::new(alloc);
    for (part, times) in parts {
        append_times(&mut text, part, *times)?;
    }
    Ok(text)
}

/// A local heap that is large enough for all entries.
const LOCAL_HEAP: (&[u8], u32) = (
    b"GlobalAlloc 0x42 8192\nLocalInit 0x107 4 8192\nDS 0x107\n",
    1,
);

/// All entries of a local heap but one, and the last.
const ENTRIES: &[(&[u8], u32)] = &[
    LOCAL_HEAP,
    (b"LocalAlloc 2 4\n", 1023),
    (
        b"LocalAlloc 2 0\nLocalAlloc 2 0\nLocalAlloc 0 4\nLocalFree 2002\nLocalFree 402\n",
        1,
    ),
    (
        b"LocalAlloc 2 4\nLocalAlloc 2 4\nLocalAlloc 2 4\nLocalDiscard 402\n",
        1,
    ),
];

/// All entries of a local heap, each with bytes, and no fixed object beside them.
const LOCKED: &[(&[u8], u32)] = &[
    LOCAL_HEAP,
    (b"LocalAlloc 2 1\n", 1024),
    (b"LocalAlloc 0 1\nLocalLock 0x0ffe\n", 1),
];

/// All selectors, and the last byte of the last object.
const SELECTORS: &[(&[u8], u32)] = &[
    (b"GlobalAlloc 0x42 32\n", 8161),
    (
        b"GetSelectorBase 0xffff\nRead 0xffff001f 1\nRead 0xffff0020 1\nRead 0xffffffff 2\n",
        1,
    ),
];

/// The text of a script, bytes of memory, a number of selectors, and the last replies.
static FULL: &[(&[(&[u8], u32)], u32, u32, &[u8])] = &[
    (
        ENTRIES,
        8192,
        16,
        b"0ffa\n0ffe\n0000\n0000\n0000\n0000\n0192\n07d2\n0000\n0000\n",
    ),
    (LOCKED, 16_384, 16, b"0ffe\n0000\n1000\n"),
    (
        SELECTORS,
        262_144,
        8160,
        b"fffe\n0000\n0003fbe0\nbytes 00\nfault limit\nfault limit\n",
    ),
];

/// What a machine prints of a script.
fn printed(
    machine: &mut Machine<MemStore>,
    alloc: Global,
    parts: &[(&[u8], u32)],
) -> Result<Vec<u8>, AllocError> {
    let script = joined(alloc, parts)?;
    let mut output = Vec::new(alloc);
    let _ = machine.play(&script, &mut output);
    Ok(output)
}

/// What a new machine prints of it.
fn printed_anew(
    alloc: Global,
    parts: &[(&[u8], u32)],
    memory: u32,
    selectors: u32,
) -> Result<Vec<u8>, AllocError> {
    let mut machine = Machine::new(alloc, memory, selectors, MemStore::new(alloc))?;
    printed(&mut machine, alloc, parts)
}

#[test]
fn the_last_is_given_and_no_more(rt: HostRuntime) -> Result<(), Fail> {
    for (parts, memory, selectors, last) in FULL {
        let output = printed_anew(rt.alloc(), parts, *memory, *selectors)?;
        assert!(rt; output.ends_with(last), "{selectors} selectors");
    }
    Ok(())
}
