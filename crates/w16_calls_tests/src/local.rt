//! What local heaps answer beside their calls.

use std::alloc::{AllocError, Global};
use std::test::Fail;
use w16_global::{Global16, GlobalAllocFlags};
use w16_local::LocalHeaps;
use w16_model::Span;
use w16_play::held::{HeldGlobal, HeldLocals};

/// Where the heaps lie in the objects of these handles: that of the segment of the only heap, its selector, and one of no object.
fn ranges(local: &LocalHeaps, global: &Global16) -> [Option<Span>; 3] {
    [
        local.heap_range(global, 0x106),
        local.heap_range(global, 0x107),
        local.heap_range(global, 0x10E),
    ]
}

/// What is told of a heap from 5 to 63 in a new object, after a drop of its selector, and after one of its handle.
fn told(
    local: &mut LocalHeaps,
    global: &mut Global16,
) -> Result<[[Option<Span>; 3]; 3], AllocError> {
    let _ = global.global_alloc(GlobalAllocFlags::MOVEABLE | GlobalAllocFlags::ZEROINIT, 64);
    let _ = local.local_init(global, 0, 0x107, 5, 63)?;
    let begun = ranges(local, global);
    local.drop_heap(global, 0x107);
    let kept = ranges(local, global);
    local.drop_heap(global, 0x106);
    Ok([begun, kept, ranges(local, global)])
}

/// The same by new local heaps.
fn told_anew(alloc: Global, global: &mut Global16) -> Result<[[Option<Span>; 3]; 3], AllocError> {
    let heaps = LocalHeaps::new(alloc, 16)?;
    let mut held = HeldLocals { heaps };
    told(&mut held.heaps, global)
}

/// The same in a new global heap.
fn told_in_a_new_heap(alloc: Global) -> Result<[[Option<Span>; 3]; 3], AllocError> {
    let heap = Global16::new(alloc, 4096, 16)?;
    let mut held = HeldGlobal { heap };
    told_anew(alloc, &mut held.heap)
}

#[test]
fn a_heap_goes_by_the_handle_of_its_object(rt: HostRuntime) -> Result<(), Fail> {
    let there = [Some(Span { from: 8, to: 60 }), None, None];
    let told = told_in_a_new_heap(rt.alloc())?;
    assert!(rt; told == [there, there, [None; 3]], "{told:?}");
    Ok(())
}
