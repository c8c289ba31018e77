//! What the global heap answers beside its calls.

use std::alloc::{AllocError, Global};
use std::test::Fail;
use w16_global::{Global16, GlobalAllocFlags, GlobalReAllocFlags};
use w16_play::held::HeldGlobal;

/// How many bytes were written: nothing yet, after an object of zeros, and after its growth to another place.
fn counts(global: &mut Global16) -> [u64; 3] {
    let begun = global.written();
    let _ = global.global_alloc(GlobalAllocFlags::MOVEABLE | GlobalAllocFlags::ZEROINIT, 32);
    let zeroed = global.written();
    let _ = global.global_alloc(GlobalAllocFlags::MOVEABLE, 32);
    let _ = global.global_realloc(0x106, 64, GlobalReAllocFlags(0));
    [begun, zeroed, global.written()]
}

/// The same of a new heap.
fn counts_of_a_new_heap(alloc: Global) -> Result<[u64; 3], AllocError> {
    let heap = Global16::new(alloc, 128, 16)?;
    let mut held = HeldGlobal { heap };
    Ok(counts(&mut held.heap))
}

#[test]
fn written_bytes_are_counted(rt: HostRuntime) -> Result<(), Fail> {
    let counts = counts_of_a_new_heap(rt.alloc())?;
    assert!(rt; counts == [0, 32, 64], "{counts:?}");
    Ok(())
}

/// How far a call raises the number of bytes written, and how many it says to have moved.
fn rise(global: &Global16, before: u64) -> (u64, u64) {
    (global.written().saturating_sub(before), global.moved())
}

/// The rises of three calls: an allocation for which two objects slide, a growth into another hole, and one for which another object slides.
fn rises(global: &mut Global16) -> [(u64, u64); 3] {
    for _ in 0..4 {
        let _ = global.global_alloc(GlobalAllocFlags::MOVEABLE, 32);
    }
    let _ = global.global_free(0x10e);
    let before = global.written();
    let _ = global.global_alloc(GlobalAllocFlags::MOVEABLE, 64);
    let slide = rise(global, before);
    let _ = global.global_free(0x10e);
    let before = global.written();
    let _ = global.global_realloc(0x106, 64, GlobalReAllocFlags(0));
    let growth = rise(global, before);
    let _ = global.global_free(0x116);
    let before = global.written();
    let _ = global.global_realloc(0x106, 128, GlobalReAllocFlags(0));
    [slide, growth, rise(global, before)]
}

/// The same in a new heap.
fn rises_in_a_new_heap(alloc: Global) -> Result<[(u64, u64); 3], AllocError> {
    let heap = Global16::new(alloc, 160, 16)?;
    let mut held = HeldGlobal { heap };
    Ok(rises(&mut held.heap))
}

#[test]
fn bytes_that_move_are_written_once(rt: HostRuntime) -> Result<(), Fail> {
    let rises = rises_in_a_new_heap(rt.alloc())?;
    assert!(rt; rises == [(64, 64), (32, 32), (96, 96)], "{rises:?}");
    Ok(())
}

/// Whether an object without bytes that no module owns is brought back.
fn is_brought_back(global: &mut Global16) -> bool {
    let handle = global.global_alloc(
        GlobalAllocFlags::MOVEABLE | GlobalAllocFlags::DISCARDABLE,
        0,
    );
    global.revive(handle)
}

/// The same in a new heap.
fn is_brought_back_in_a_new_heap(alloc: Global) -> Result<bool, AllocError> {
    let heap = Global16::new(alloc, 128, 16)?;
    let mut held = HeldGlobal { heap };
    Ok(is_brought_back(&mut held.heap))
}

#[test]
fn what_no_module_owns_is_not_brought_back(rt: HostRuntime) -> Result<(), Fail> {
    let brought_back = is_brought_back_in_a_new_heap(rt.alloc())?;
    assert!(rt; !brought_back);
    Ok(())
}
