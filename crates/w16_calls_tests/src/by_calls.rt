//! Calls without a script: the life of an object, and that of a library.
ghost use Rattle.std.specs.Prelude.{All};
ghost use Rattle.w16_kernel.specs.Runs.{IsCall};

use std::alloc::{AllocError, Global};
use std::test::Fail;
use w16_kernel::{Answer, Call, GlobalAllocFlags, Kernel, Label, Reply};
use w16_loading::FetchFault;
use w16_model::FarFault;
use w16_play::files::store_of;
use w16_play::held::HeldKernel;
use w16_play::texts::ALL;
use w16_store::MemStore;

/// One object's life as calls.
fn life() -> [Call<'static>; 6]
    ensures { All IsCall result }
{
    [
        Call::GlobalAlloc {
            flags: GlobalAllocFlags::MOVEABLE | GlobalAllocFlags::ZEROINIT,
            size: 100,
        },
        Call::GlobalLock { handle: 0x106 },
        Call::Write {
            pointer: 0x0107_0000,
            bytes: b"NE",
        },
        Call::Read {
            pointer: 0x0107_0000,
            count: 4,
        },
        Call::GlobalUnlock { handle: 0x106 },
        Call::GlobalFree { handle: 0x106 },
    ]
}

/// The replies that each must have.
static LIFE_REPLIES: &[Reply<'static>] = &[
    Reply::Word(0x106),
    Reply::Dword(0x0107_0000),
    Reply::Done,
    Reply::Bytes(b"NE\0\0"),
    Reply::Word(0),
    Reply::Word(0),
];

/// Whether an answer keeps a reply that is no walk.
fn keeps(answer: &Answer, reply: &Reply<'_>) -> bool {
    match (answer, reply) {
        (Answer::Word(word), Reply::Word(wanted)) => word == wanted,
        (Answer::Dword(dword), Reply::Dword(wanted)) => dword == wanted,
        (Answer::Bytes(bytes), Reply::Bytes(wanted)) => bytes.as_slice() == *wanted,
        (Answer::Done, Reply::Done) => true,
        (Answer::Fault(fault), Reply::Fault(wanted)) => fault == wanted,
        (Answer::Failed(fault), Reply::Failed(wanted)) => fault == wanted,
        _ => false,
    }
}

/// Whether answers keep just these replies.
fn keep_all(answers: &[Answer], replies: &[Reply<'_>]) -> bool {
    answers.len() == replies.len()
        && answers
            .iter()
            .zip(replies)
            .all(|(answer, reply)| keeps(answer, reply))
}

/// The answers to the calls of a life on a new machine.
fn life_answers(alloc: Global) -> Result<Vec<Answer>, AllocError> {
    let kernel = Kernel::new(alloc, 4096, 16, MemStore::new(alloc))?;
    let mut held = HeldKernel { kernel };
    held.kernel.run_calls(&life())
}

#[test]
fn the_life_of_an_object_by_calls(rt: HostRuntime) -> Result<(), Fail> {
    let answers = life_answers(rt.alloc())?;
    assert!(rt; keep_all(&answers, LIFE_REPLIES), "{answers:?}");
    Ok(())
}

/// A library's life in a heap that has room for one of its segments alone.
fn library_life() -> [Call<'static>; 8]
    ensures { All IsCall result }
{
    [
        Call::Builtin { name: b"KERNEL" },
        Call::LoadLibrary { file: b"TLIB.DLL" },
        Call::GetProcAddress {
            handle: 0x22,
            label: Label::Text(b"getb"),
        },
        Call::Read {
            pointer: 0x010f_0004,
            count: 1,
        },
        Call::GlobalLock { handle: 0x10e },
        Call::Read {
            pointer: 0x0107_0000,
            count: 1,
        },
        Call::Write {
            pointer: 0x010f_0000,
            bytes: b"N",
        },
        Call::FreeModule { handle: 0x22 },
    ]
}

/// Whether these are the answers to it.
fn is_library_life(answers: &[Answer]) -> bool {
    match answers {
        [
            Answer::Word(0x21),
            Answer::Word(0x22),
            Answer::Dword(0x010f_0004),
            Answer::Bytes(bytes),
            Answer::Dword(0x010f_0000),
            Answer::Failed(FetchFault::NoRoom),
            Answer::Fault(FarFault::ReadOnly),
            Answer::Word(0),
        ] => bytes.as_slice() == [0xcb].as_slice(),
        _ => false,
    }
}

/// The answers to it on a new machine over the sample files.
fn library_life_answers(alloc: Global) -> Result<Vec<Answer>, AllocError> {
    let kernel = Kernel::new(alloc, 32, 16, store_of(alloc, ALL)?)?;
    let mut held = HeldKernel { kernel };
    held.kernel.run_calls(&library_life())
}

#[test]
fn the_life_of_a_library_by_calls(rt: HostRuntime) -> Result<(), Fail> {
    let answers = library_life_answers(rt.alloc())?;
    assert!(rt; is_library_life(&answers), "{answers:?}");
    Ok(())
}
