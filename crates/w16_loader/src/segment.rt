//! What the flags of a segment say of its object.
ghost use Rattle.std.specs.Prelude.{◌≡◌, ◌||◌};
ghost use Rattle.w16_model.specs.Heap.{is_fixed};
ghost use Rattle.w16_format.specs.Tables.{has, kind_of_flags, is_code_flags, segment_in};

use w16_model::Kind;
use w16_ne::{Segment, SegmentFlags};

/// Whether a segment has a flag.
fn has(flags: SegmentFlags, flag: SegmentFlags) -> bool
    ensures { result ≡ has flags.0 flag.0 }
{
    flags.0 & flag.0 != 0
}

/// Whether a segment is code.
pub(crate) fn is_code(flags: SegmentFlags) -> bool
    ensures { result ≡ is_code_flags flags.0 }
{
    !has(flags, SegmentFlags::DATA)
}

/// The kind of a segment's object. Data are never discardable.
pub(crate) fn segment_kind(flags: SegmentFlags) -> Kind
    ensures { result ≡ kind_of_flags flags.0 (is_code_flags flags.0) }
{
    if !has(flags, SegmentFlags::MOVEABLE) {
        Kind::Fixed
    } else if is_code(flags) && has(flags, SegmentFlags::DISCARDABLE) {
        Kind::Discardable
    } else {
        Kind::Moveable
    }
}

/// Whether a load gives the object of a segment its bytes, whichever its kind.
pub(crate) fn is_preload(flags: SegmentFlags) -> bool
    ensures { result ≡ has flags.0 0x40 }
{
    has(flags, SegmentFlags::PRELOAD)
}

/// Whether a load gives the object of a segment its bytes: it is fixed, or a preload segment.
pub(crate) fn is_filled(segment: &Segment) -> bool
    ensures { result ≡ (is_fixed (segment_in segment.now).kind || (segment_in segment.now).is_preload) }
{
    matches!(segment_kind(segment.flags), Kind::Fixed) || is_preload(segment.flags)
}
