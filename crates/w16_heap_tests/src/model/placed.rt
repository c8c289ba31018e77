//! What is placed.
use w16_model::{Block, Hold, Snapshot};

/// Blocks between 32 and 128, and whether they are placed there.
static PLACED: &[(&str, &[Block], bool)] = &[
    ("no blocks", &[], true),
    (
        "two that touch",
        &[loose!(33, 64, 32), pinned!(32, 32, 32)],
        true,
    ),
    ("one as long as the heap", &[loose!(32, 32, 96)], true),
    ("one without bytes", &[loose!(32, 32, 0)], false),
    ("one that begins too low", &[loose!(32, 28, 32)], false),
    ("one that ends too high", &[loose!(32, 100, 32)], false),
    (
        "one whose end is no address",
        &[loose!(32, 32, 4_294_967_295)],
        false,
    ),
    (
        "two that share a byte",
        &[loose!(32, 32, 32), loose!(33, 63, 32)],
        false,
    ),
    (
        "one inside another",
        &[loose!(32, 32, 96), loose!(33, 64, 4)],
        false,
    ),
    (
        "one that is listed twice",
        &[loose!(32, 32, 32), loose!(32, 32, 32)],
        false,
    ),
];

#[test]
fn tells_what_is_placed(rt: HostRuntime) {
    for (name, blocks, placed) in PLACED {
        let heap = heap!(32, 128, blocks, &[]);
        assert_eq!(rt; heap.is_placed(), *placed, "{name}");
    }
}
