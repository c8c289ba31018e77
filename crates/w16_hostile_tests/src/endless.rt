//! Modules that import new modules without an end.

use crate::stores::{Endless, Harm, Hostile};
use std::alloc::{AllocError, Global};
use std::test::Fail;
use w16_play::files::store_of;

/// No handle is left for the two hundred and first module, so none of them is loaded.
const REFUSED: &str = "\
GlobalAlloc 2 32 -> 0106
LoadLibrary AAAA.DLL -> 0000
GetModuleHandle AAAA -> 0000
LoadModule AZZZ.DLL -> 0000
GetModuleHandle BAAA -> 0000
Builtin AAAB -> 0021
Walk -> 00000000 00000020 0106 moveable 0 / 00000020 00000fe0 free / end
GlobalAlloc 2 32 -> 010e";

/// The first wrong line over files without end.
fn first_wrong(alloc: Global) -> Result<Option<(usize, usize)>, AllocError> {
    let samples = store_of(alloc, "TAPP.EXE")?;
    Hostile::of(Harm::Endless(Endless { samples })).first_wrong(alloc, &[REFUSED])
}

#[test]
fn imports_without_end_are_refused(rt: HostRuntime) -> Result<(), Fail> {
    let wrong = first_wrong(rt.alloc())?;
    assert!(rt; wrong.is_none(), "{wrong:?}");
    Ok(())
}
