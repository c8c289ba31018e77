//! The bytes of a segment, written over those of its object.
ghost use Rattle.std.specs.Prelude.{◌≡◌, ◌≤◌, ◌^◌, ◌<◌, ℕ, List, length, All};
ghost use Rattle.w16_reloc.specs.Images.{byte, IsImage};
ghost use Rattle.w16_reloc.specs.Law.{IsFar};
ghost use Rattle.w16_reloc.specs.Sound.{IsSound};

use w16_global::Work;
use w16_region::Space;
use w16_reloc::{Far, Record, apply};

/// Puts data at the front of some bytes, as many as have room, and zeros after them.
fn copy_padded(bytes: &mut [u8], source: &[u8])
    ensures placed { length source.now ≤ length bytes.old → (o : ℕ) → byte bytes.new o ≡ byte source.now o }
    ensures length { length bytes.new ≡ length bytes.old }
{
    let len = source.len().min(bytes.len());
    bytes[..len].copy_from_slice(&source[..len]);
    bytes[len..].fill(0);
}

/// Writes a segment's image over some bytes: its data, zeros after them, and the values of its relocation records, one for each. Where the
/// records are not sound in the data, or the data have no room, the bytes are any afterwards.
fn write_image(bytes: &mut [u8], source: &[u8], records: &[Record], values: &[Far])
    requires { length records.now ≡ length values.now }
    ensures image { (named : List (List ℕ)) → IsSound source.now records.now named → length source.now ≤ length bytes.old
        → IsImage source.now records.now values.now named bytes.new }
    ensures length { length bytes.new ≡ length bytes.old }
    ensures words { All IsFar values.now }
{
    copy_padded(bytes, source);
    apply(bytes, records, values);
}

/// Writes a segment's image over the bytes of its object; with no records, as of a resource, its data and zeros after them.
#[derive(Clone, Copy)]
pub struct SegmentWork<'a> {
    /// Its data in the file.
    pub data: &'a [u8],
    pub records: &'a [Record],
    /// A value for each record.
    pub values: &'a [Far],
}

impl Work<()> for SegmentWork<'_> {
    type Answer = ();

    ghost use Rattle.std.specs.Prelude.{◌≡◌, length};
    ghost use Rattle.w16_loader.specs.Fetching.{IsWritten};

    ghost may = { λ w _ _. length w.records.now ≡ length w.values.now };

    ghost does = { λ w _ _ _ _ after _ _. IsWritten w.data.now w.records.now w.values.now after };

    fn work<S: Space>(&self, _state: &mut (), space: &mut S) {
        let size = space.len();
        write_image(
            space.view_mut(0, size),
            self.data,
            self.records,
            self.values,
        );
    }
}
