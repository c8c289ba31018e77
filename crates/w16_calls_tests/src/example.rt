//! The machine as a library, as README.md shows it: a module is loaded from a file in memory.
use std::alloc::{AllocError, Global};
use std::test::Fail;
use w16_kernel::{Call, Kernel, MOST_READ, Reply};
use w16_play::files::file_of;
use w16_play::held::HeldKernel;
use w16_store::MemStore;

/// A new machine of 64 KiB of memory, for 16 objects at most, over a store with one file.
fn machine(alloc: Global, file: &[u8]) -> Result<Kernel<MemStore>, AllocError> {
    let mut store = MemStore::new(alloc);
    store.add(b"TLIB.DLL", file)?;
    Kernel::new(alloc, 65_536, 16, store)
}

/// Loads the file: the module's handle, or why it is refused; none where the store failed.
fn load(kernel: &mut Kernel<MemStore>) -> Result<Option<u16>, AllocError> {
    // Bytes that a call reads are put here.
    let mut room = [0; MOST_READ];
    match kernel.call(&Call::LoadLibrary { file: b"TLIB.DLL" }, &mut room)? {
        Reply::Word(number) => Ok(Some(number)),
        _ => Ok(None),
    }
}

/// Loads a file in a new machine.
fn load_anew(alloc: Global, file: &[u8]) -> Result<Option<u16>, AllocError> {
    let kernel = machine(alloc, file)?;
    let mut held = HeldKernel { kernel };
    load(&mut held.kernel)
}

#[test]
fn refuses_a_text(rt: HostRuntime) -> Result<(), Fail> {
    let number = load_anew(rt.alloc(), b"no module")?;
    assert!(rt; number == Some(11));
    Ok(())
}

#[test]
fn loads_a_library(rt: HostRuntime) -> Result<(), Fail> {
    let file = file_of(rt.alloc(), "TLIB.DLL")?;
    let number = load_anew(rt.alloc(), file.bytes.as_slice())?;
    assert!(rt; number == Some(0x21));
    Ok(())
}
