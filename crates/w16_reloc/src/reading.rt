//! Parts of a module's file, read through a store.
ghost use Rattle.std.specs.Prelude.{◌≡◌, ℕ, ◌<◌, ◌≤◌, ◌+◌, ◌^◌, length, List, take, drop, Some, Ok, IfErr};
ghost use Rattle.w16_store.specs.Files.{file_of};
ghost use Rattle.w16_store.specs.Later.{IsLater, RoseIf};
ghost use Rattle.w16_ne.specs.Segments.{records_at};
ghost use Rattle.w16_ne.specs.Texts.{text_in};
ghost use Rattle.w16_reloc.specs.Segments.{Answers, has_text_at, is_reloc_device};

use crate::chain::word;
use crate::fault::RelocFault;
use w16_store::Store;

/// Fills the buffer from an offset of the file on.
pub fn read<S: Store>(store: &mut S, name: &[u8], at: u64, buf: &mut [u8]) -> Result<(), RelocFault>
    ensures stays { IsLater (S.files store.old) (S.failures store.old) (S.files store.new) (S.failures store.new) }
    ensures device { IfErr result (RoseIf is_reloc_device (S.failures store.old) (S.failures store.new)) }
    ensures exact { (file : List ℕ) → S.is_honest → file_of (S.files store.old) name.now ≡ Some file → at + length buf.old ≤ length file
        → Answers (λ _. buf.new) (S.failures store.old) (S.failures store.new) result (Ok (take (length buf.old) (drop at file))) }
{
    match store.read_at(name, at, buf) {
        Ok(()) => Ok(()),
        Err(fault) => Err(RelocFault::Store(fault)),
    }
}

/// The file's length.
pub fn len_of<S: Store>(store: &mut S, name: &[u8]) -> Result<u64, RelocFault>
    ensures stays { IsLater (S.files store.old) (S.failures store.old) (S.files store.new) (S.failures store.new) }
    ensures device { IfErr result (RoseIf is_reloc_device (S.failures store.old) (S.failures store.new)) }
    ensures exact { (file : List ℕ) → S.is_honest → file_of (S.files store.old) name.now ≡ Some file
        → Answers (λ n. n) (S.failures store.old) (S.failures store.new) result (Ok (length file)) }
{
    match store.len_of(name) {
        Ok(len) => Ok(len),
        Err(refused) => Err(RelocFault::Store(refused)),
    }
}

/// Whether a length byte at an index, and the text after it, lie in some bytes.
pub fn has_text(texts: &[u8], at: u16) -> bool
    ensures { result ≡ has_text_at texts.now at }
{
    match texts.get(usize::from(at)) {
        None => false,
        Some(len) => usize::from(at) + usize::from(*len) < texts.len(),
    }
}

/// The text whose length byte stands at an index: none where that is past the end, and as much of it as there is.
pub fn text(texts: &[u8], at: u16) -> &[u8]
    ensures { result.now ≡ text_in texts.now at }
{
    let at = usize::from(at);
    match texts.get(at) {
        None => &[],
        Some(len) => {
            let rest = &texts[at + 1..];
            &rest[..usize::from(*len).min(rest.len())]
        }
    }
}

/// How many records stand after the data that end at an offset, by their count there.
#[tactic(auto, unfolding(w16_ne::specs::Segments::records_at))]
pub fn count_at<S: Store>(
    store: &mut S,
    name: &[u8],
    flags: u16,
    end: u64,
) -> Result<u16, RelocFault>
    ensures stays { IsLater (S.files store.old) (S.failures store.old) (S.files store.new) (S.failures store.new) }
    ensures device { IfErr result (RoseIf is_reloc_device (S.failures store.old) (S.failures store.new)) }
    ensures exact { (file : List ℕ) (count : ℕ) → S.is_honest → file_of (S.files store.old) name.now ≡ Some file → records_at (Some file) flags end ≡ Ok count
        → Answers (λ n. n) (S.failures store.old) (S.failures store.new) result (Ok count) }
{
    if flags & 0x100 == 0 {
        return Ok(0);
    }
    let mut count = [0u8; 2];
    read(store, name, end, &mut count)?;
    Ok(word(&count, 0))
}
