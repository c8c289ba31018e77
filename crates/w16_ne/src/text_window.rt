//! Texts that words lead to: each a length byte and so many bytes, at a word's offset from one place of the file.
ghost use Rattle.std.specs.Prelude.{◌≡◌, ℕ, ◌<◌, ◌+◌, List, Option, Ok, length, slice_index, OnOk, MatchBool, IfErr};
ghost use Rattle.w16_store.specs.Files.{file_of};
ghost use Rattle.w16_store.specs.Later.{IsLater, RoseIf};
ghost use Rattle.w16_ne.specs.Reading.{Gives, Tells, IsOfFile, is_ne_device};
ghost use Rattle.w16_ne.specs.References.{text_at};
ghost use Rattle.w16_ne.specs.Texts.{HasText, text_in, texts_behind};

use crate::fault::NeFault;
use crate::reading::{file_len, part, table};
use std::alloc::Allocator;
use w16_store::{Store, reveal_bytes};

/// How far texts go that words lead to: 65,535 bytes, a length byte and 255 bytes.
pub const TEXTS: u64 = 65_791;

/// The bytes of a file from an offset on, up to its end or as far as texts go that words lead to.
pub fn texts_behind<A: Allocator + Copy, S: Store>(
    alloc: A,
    store: &mut S,
    name: &[u8],
    at: u64,
) -> Result<Vec<u8, A>, NeFault>
    ensures stays { IsLater (S.files store.old) (S.failures store.old) (S.files store.new) (S.failures store.new) }
    ensures device { IfErr result (RoseIf is_ne_device (S.failures store.old) (S.failures store.new)) }
    ensures exact { S.is_honest → Gives (λ v. v.items) (file_of (S.files store.old) name.now)
        (S.failures store.old) (S.failures store.new) result (texts_behind (file_of (S.files store.old) name.now) at) }
{
    let len = file_len(store, name)?;
    if at >= len {
        return Ok(Vec::new(alloc));
    }
    let count = (len - at).min(TEXTS) as usize;
    table(alloc, store, name, at, count, NeFault::Truncated)
}

/// Whether a text lies whole in bytes, at an index.
fn has_text(texts: &[u8], at: usize) -> bool
    ensures { MatchBool result (HasText texts.now at) (length texts.now < at + 1 + slice_index texts.now at) }
{
    at < texts.len() && usize::from(texts[at]) < texts.len() - at
}

/// Tests that the text that a word leads to is there whole, and answers the fault `short` where the file ends before.
pub fn test_text(texts: &[u8], word: u16, short: NeFault) -> Result<(), NeFault>
    requires { IsOfFile short }
    ensures exact { (file : Option (List ℕ)) (at : ℕ) → texts_behind file at ≡ Ok texts.now
        → Tells (λ _. text_in texts.now word) result (text_at short file (at + word)) }
    ensures inside { OnOk result (HasText texts.now word) }
    ensures fault { IfErr result (λ e. e ≡ short) }
{
    reveal_bytes(texts);
    if !has_text(texts, usize::from(word)) {
        return Err(short);
    }
    Ok(())
}

/// The text that a word leads to.
pub fn text_in(texts: &[u8], word: u16) -> &[u8]
    requires { HasText texts.now word }
    ensures value { result.now ≡ text_in texts.now word }
    ensures len { length result.now ≡ slice_index texts.now word }
{
    let at = usize::from(word);
    part(texts, at + 1, usize::from(texts[at]))
}
