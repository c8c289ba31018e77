//! Want of memory: each growth of each constructor is refused in turn.

use std::alloc::{AllocError, Global};
use std::test::Fail;
use w16_arena::Arena;
use w16_blocks::Blocks;
use w16_compact::GapRooms;
use w16_fuse::{Fuse, growths};
use w16_holes::SideHoles;

/// What is made, for six ids over 256 bytes.
#[derive(Clone, Copy, Debug)]
enum Layer {
    /// Over holes, which are made first.
    Blocks,
    GapRooms,
    /// Over holes too.
    Arena,
}

/// Each, and how many growths it takes: holes one; blocks three; gap rooms two; an arena its entries, its blocks, two of an order of use, gap
/// rooms, and what it discarded.
static LAYERS: &[(Layer, u64)] = &[(Layer::Blocks, 4), (Layer::GapRooms, 2), (Layer::Arena, 10)];

/// Makes blocks, and they go.
fn make_blocks(fuse: &Fuse<Global>) -> Result<(), AllocError> {
    let holes = SideHoles::new(fuse, 0, 256, 32)?;
    let _blocks = Blocks::with_room(fuse, 6, holes, 0, 256, 32)?;
    Ok(())
}

/// Makes an arena, and it goes.
fn make_arena(fuse: &Fuse<Global>) -> Result<(), AllocError> {
    let holes = SideHoles::new(fuse, 0, 256, 32)?;
    let _arena = Arena::new(fuse, 6, holes, 0, 256, 32)?;
    Ok(())
}

/// Whether a layer is made. It goes at once.
fn is_made(fuse: &Fuse<Global>, layer: Layer) -> bool {
    match layer {
        Layer::Blocks => make_blocks(fuse).is_ok(),
        Layer::GapRooms => GapRooms::with_room(fuse, 6).is_ok(),
        Layer::Arena => make_arena(fuse).is_ok(),
    }
}

#[test]
fn constructors_fail_where_a_growth_is_refused(rt: HostRuntime) -> Result<(), Fail> {
    let fuse = Fuse::new(rt.alloc());
    for (layer, wanted) in LAYERS {
        let taken = growths(&fuse, |fuse| is_made(fuse, *layer));
        assert!(rt; taken == Some(*wanted), "{layer:?} takes {taken:?}");
    }
    Ok(())
}
