//! Want of memory: each growth of each constructor is refused in turn.

use std::alloc::{AllocError, Global};
use std::test::Fail;
use w16_fuse::{Fuse, growths};
use w16_holes::{SideHoles, ThreadedHoles};
use w16_lru::Order;
use w16_region::Region;
use w16_selectors::Selectors;
use w16_tree::Maxima;

/// What is made.
#[derive(Clone, Copy, Debug)]
enum Part {
    Maxima,
    Order,
    Region,
    SideHoles,
    /// In a region, which is made first.
    ThreadedHoles,
    Selectors,
}

/// Each, and how many growths it takes.
static PARTS: &[(Part, u64)] = &[
    (Part::Maxima, 1),
    (Part::Order, 2),
    (Part::Region, 1),
    (Part::SideHoles, 1),
    (Part::ThreadedHoles, 2),
    (Part::Selectors, 2),
];

/// Makes holes in a region, and both go.
fn make_threaded_holes(fuse: &Fuse<Global>) -> Result<(), AllocError> {
    let mut space = Region::new(fuse, 256)?;
    let _holes = ThreadedHoles::new(fuse, &mut space, 0, 256, 32)?;
    Ok(())
}

/// Whether a part is made. It goes at once.
fn is_made(fuse: &Fuse<Global>, part: Part) -> bool {
    match part {
        Part::Maxima => Maxima::zeros(fuse, 100).is_ok(),
        Part::Order => Order::with_room(fuse, 100).is_ok(),
        Part::Region => Region::new(fuse, 256).is_ok(),
        Part::SideHoles => SideHoles::new(fuse, 0, 256, 32).is_ok(),
        Part::ThreadedHoles => make_threaded_holes(fuse).is_ok(),
        Part::Selectors => Selectors::with_room(fuse, 16).is_ok(),
    }
}

#[test]
fn constructors_fail_where_a_growth_is_refused(rt: HostRuntime) -> Result<(), Fail> {
    let fuse = Fuse::new(rt.alloc());
    for (part, wanted) in PARTS {
        let taken = growths(&fuse, |fuse| is_made(fuse, *part));
        assert!(rt; taken == Some(*wanted), "{part:?} takes {taken:?}");
    }
    Ok(())
}
