//! What a request discards.
use super::cases::{Case, tables};
use std::alloc::{AllocError, Global};
use std::test::Fail;

/// Whether just what is wanted may be discarded, and leaves the rooms that are wanted.
fn has_rooms(alloc: Global, case: &Case) -> Result<bool, AllocError> {
    let heap = case.heap;
    let (_, about, _) = case.asked;
    if !heap.is_placed() || heap.eligible(alloc, about)?.as_slice() != case.eligible {
        return Ok(false);
    }
    for (count, wanted) in case.rooms.iter().enumerate() {
        if heap.room_for(alloc, count, about)? != *wanted {
            return Ok(false);
        }
    }
    Ok(true)
}

/// Whether a request needs as many discards as are wanted, and is answered by as many.
fn is_answered(alloc: Global, case: &Case) -> Result<bool, AllocError> {
    let heap = case.heap;
    let (size, about, options) = case.asked;
    if !heap.is_placed() {
        return Ok(false);
    }
    let needed = heap.needed(alloc, size, about)?;
    let prefix = heap.prefix(alloc, size, about, options)?;
    Ok((needed, prefix) == case.discards)
}

#[test]
fn counts_discards(rt: HostRuntime) -> Result<(), Fail> {
    for cases in tables() {
        for case in cases {
            let counted = has_rooms(rt.alloc(), case)?;
            let answered = is_answered(rt.alloc(), case)?;
            assert!(rt; counted && answered, "{}", case.name);
        }
    }
    Ok(())
}
