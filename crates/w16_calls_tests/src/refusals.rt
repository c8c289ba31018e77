//! Want of memory: each growth of each constructor, and of calls one after another, is refused in turn.
ghost use Rattle.std.specs.Prelude.{All};
ghost use Rattle.w16_kernel.specs.Runs.{IsCall};

use std::alloc::{AllocError, Global};
use std::test::Fail;
use w16_fuse::{Fuse, growths};
use w16_global::Global16;
use w16_kernel::{Call, GlobalAllocFlags, Kernel};
use w16_local::LocalHeaps;
use w16_play::held::{HeldGlobal, HeldKernel, HeldLocals};
use w16_store::MemStore;

/// What is made, with 16 selectors.
#[derive(Clone, Copy, Debug)]
enum Machine {
    GlobalHeap,
    LocalHeaps,
    Kernel,
    Calls,
}

/// Each, and how many growths it takes: a global heap its attributes, two of selectors, its memory, one of holes and nine of an arena;
/// local heaps two lists; a kernel both, modules with tables of their keys and tags and counts of their importers, a table of loads of resources, and five
/// lists of a segment's room; three calls the list of their answers, a built-in, and a local heap.
static MACHINES: &[(Machine, u64)] = &[
    (Machine::GlobalHeap, 14),
    (Machine::LocalHeaps, 2),
    (Machine::Kernel, 26),
    (Machine::Calls, 40),
];

/// Makes a global heap, and it goes.
fn make_global_heap(fuse: &Fuse<Global>) -> Result<(), AllocError> {
    let heap = Global16::new(fuse, 4096, 16)?;
    let _held = HeldGlobal { heap };
    Ok(())
}

/// Makes local heaps, and they go.
fn make_local_heaps(fuse: &Fuse<Global>) -> Result<(), AllocError> {
    let heaps = LocalHeaps::new(fuse, 16)?;
    let _held = HeldLocals { heaps };
    Ok(())
}

/// Makes a kernel, and it goes.
fn make_kernel(fuse: &Fuse<Global>, alloc: Global) -> Result<(), AllocError> {
    let kernel = Kernel::new(fuse, 4096, 16, MemStore::new(alloc))?;
    let _held = HeldKernel { kernel };
    Ok(())
}

/// Calls that take memory, and one that takes none.
fn calls() -> [Call<'static>; 3]
    ensures { All IsCall result }
{
    [
        Call::GlobalAlloc {
            flags: GlobalAllocFlags::MOVEABLE | GlobalAllocFlags::ZEROINIT,
            size: 4096,
        },
        Call::Builtin { name: b"KERNEL" },
        Call::LocalInit {
            selector: 0x107,
            start: 4,
            end: 4096,
        },
    ]
}

/// Makes a kernel, makes the calls, and the kernel goes.
fn make_calls(fuse: &Fuse<Global>, alloc: Global) -> Result<(), AllocError> {
    let kernel = Kernel::new(fuse, 4096, 16, MemStore::new(alloc))?;
    let mut held = HeldKernel { kernel };
    let _answers = held.kernel.run_calls(&calls())?;
    Ok(())
}

/// Whether it is made. It goes at once.
fn is_made(fuse: &Fuse<Global>, alloc: Global, machine: Machine) -> bool {
    match machine {
        Machine::GlobalHeap => make_global_heap(fuse).is_ok(),
        Machine::LocalHeaps => make_local_heaps(fuse).is_ok(),
        Machine::Kernel => make_kernel(fuse, alloc).is_ok(),
        Machine::Calls => make_calls(fuse, alloc).is_ok(),
    }
}

#[test]
fn each_growth_is_refused(rt: HostRuntime) -> Result<(), Fail> {
    let fuse = Fuse::new(rt.alloc());
    for (machine, wanted) in MACHINES {
        let taken = growths(&fuse, |fuse| is_made(fuse, rt.alloc(), *machine));
        assert!(rt; taken == Some(*wanted), "{machine:?} takes {taken:?}");
    }
    Ok(())
}
