//! Values written over the sites of records, in place.
ghost use Rattle.std.specs.Prelude.{◌≡◌, ℕ, ◌<◌, ◌≤◌, ◌+◌, length, List, All};
ghost use Rattle.w16_reloc.specs.Sites.{Site};
ghost use Rattle.w16_reloc.specs.Sound.{IsSound, chain_width, value_width};
ghost use Rattle.w16_reloc.specs.Images.{byte, IsImage, value_of};
ghost use Rattle.w16_reloc.specs.Law.{IsFar};
ghost use Rattle.w16_reloc.specs.Apply.{IsReady, IsWritten, IsWalked};
ghost use Rattle.w16_reloc.specs.declared.record.Record.{Record};
ghost use Rattle.w16_reloc.specs.declared.record.Record.TheVariants.{Added};

use crate::chain::{END, word};
use crate::record::{Fixup, Part, Record};
use crate::sites::{chain_width, value_width};
use crate::value::{Far, moved, reveal_words, write};

/// Writes a value over each site of a chain. A link is read before it is overwritten.
fn write_chain(bytes: &mut [u8], head: u16, part: Part, far: Far)
    ensures { (file : List ℕ) (last : List Site) (total : ℕ → ℕ) → IsWalked file (chain_width part) (value_of part far) last total (length bytes.old) head bytes.old
        → IsWalked file (chain_width part) (value_of part far) last total 0 65535 bytes.new }
{
    let width = chain_width(part);
    let mut at = head;
    for _ in 0..bytes.len() {
        let place = at as usize;
        if at == END || place + width > bytes.len() {
            return;
        }
        let next = word(bytes, place);
        write(bytes, place, part, far);
        at = next;
    }
}

/// Adds a value to what is at one site.
fn write_sum(bytes: &mut [u8], fixup: &Fixup, far: Far)
    ensures { (file : List ℕ) (before : List Site) (ats : List ℕ) → IsReady file bytes.old before (Added fixup.now) ats
        → IsWritten file bytes.old bytes.new before (Added fixup.now) far ats }
{
    let at = fixup.offset as usize;
    if at + value_width(fixup.part) <= bytes.len() {
        let far = moved(bytes, at, fixup.part, far);
        write(bytes, at, fixup.part, far);
    }
}

/// Writes one record's value over its sites.
fn write_record(bytes: &mut [u8], relocation: &Record, far: Far)
    ensures { (file : List ℕ) (before : List Site) (ats : List ℕ) → IsReady file bytes.old before relocation.now ats
        → IsWritten file bytes.old bytes.new before relocation.now far ats }
{
    match relocation {
        Record::Stored(fixup) => write_chain(bytes, fixup.offset, fixup.part, far),
        Record::Added(fixup) => write_sum(bytes, fixup, far),
        Record::System => {}
    }
}

/// Relocates a segment in place: over bytes that begin with its file's data, and are zero after it, the values of its records are written, one
/// target for each. Where the records are not sound in those data, the bytes are any afterwards.
pub fn apply(bytes: &mut [u8], records: &[Record], targets: &[Far])
    requires { length records.now ≡ length targets.now }
    ensures image { (file : List ℕ) (named : List (List ℕ)) → IsSound file records.now named → length file ≤ length bytes.old
        → ((o : ℕ) → byte bytes.old o ≡ byte file o) → IsImage file records.now targets.now named bytes.new }
    ensures length { length bytes.new ≡ length bytes.old }
    ensures words { All IsFar targets.now }
{
    for i in 0..records.len() {
        let far = targets[i];
        reveal_words(far);
        write_record(bytes, &records[i], far);
    }
}
