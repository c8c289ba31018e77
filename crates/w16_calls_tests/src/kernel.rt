//! What a kernel answers beside its calls.

use std::alloc::{AllocError, Global};
use std::test::Fail;
use w16_kernel::{Kernel, SizeFault, check_sizes};
use w16_model::Item;
use w16_play::held::HeldKernel;
use w16_store::MemStore;

/// Sizes of memory, numbers of selectors, and what is said of them.
static SIZES: &[(u32, u32, Result<(), SizeFault>)] = &[
    (32, 1, Ok(())),
    (16_777_216, 8160, Ok(())),
    (0, 1, Err(SizeFault::MemorySize)),
    (31, 1, Err(SizeFault::MemorySize)),
    (33, 1, Err(SizeFault::MemorySize)),
    (16_777_248, 1, Err(SizeFault::MemorySize)),
    (32, 0, Err(SizeFault::SelectorCount)),
    (32, 8161, Err(SizeFault::SelectorCount)),
    (0, 0, Err(SizeFault::MemorySize)),
];

#[test]
fn sizes_are_checked(rt: HostRuntime) {
    for (memory, selectors, wanted) in SIZES {
        let said = check_sizes(*memory, *selectors);
        assert!(rt; said == *wanted, "{memory} bytes, {selectors} selectors");
    }
}

/// A hole of 96 bytes at 0.
const ALL: Option<Item> = Some(Item {
    at: 0,
    size: 96,
    owner: None,
});

/// The first part and the second of a kernel, by number and by address.
fn parts(kernel: &Kernel<MemStore>) -> [[Option<Item>; 2]; 2] {
    [
        [kernel.walk_at(0), kernel.walk_at(1)],
        [kernel.walk_from(0), kernel.walk_from(1)],
    ]
}

/// The same of a new kernel of 96 bytes.
fn parts_of_a_new_kernel(alloc: Global) -> Result<[[Option<Item>; 2]; 2], AllocError> {
    let kernel = Kernel::new(alloc, 96, 16, MemStore::new(alloc))?;
    let held = HeldKernel { kernel };
    Ok(parts(&held.kernel))
}

#[test]
fn parts_are_told_by_number_and_by_address(rt: HostRuntime) -> Result<(), Fail> {
    let parts = parts_of_a_new_kernel(rt.alloc())?;
    assert!(rt; parts == [[ALL, None]; 2], "{parts:?}");
    Ok(())
}
