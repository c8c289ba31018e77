//! The sites of relocation records.
ghost use Rattle.std.specs.Prelude.{◌≡◌, ◌++◌, length, OnOk};
ghost use Rattle.w16_ne.specs.Reading.{word_of};
ghost use Rattle.w16_reloc.specs.Naming.{chain_from, offsets_of};

use crate::bytes::word;
use std::alloc::AllocError;
use w16_reloc::Record;

/// The end of a chain.
const END: u16 = 0xffff;

/// The word at an offset, which is the next one of a chain.
fn next(bytes: &[u8], at: u16) -> u16
    ensures { result ≡ word_of bytes.now at }
{
    word(bytes, usize::from(at))
}

/// Appends the offsets of a chain from its head on: at most as many as the data have bytes, which a sound chain never has.
fn push_chain(bytes: &[u8], head: u16, sites: &mut Vec<u16>) -> Result<(), AllocError>
    ensures { OnOk result (sites.new.items ≡ sites.old.items ++ chain_from bytes.now (length bytes.now) head) }
{
    let mut at = head;
    for _ in 0..bytes.len() {
        if at == END {
            return Ok(());
        }
        sites.push(at)?;
        at = next(bytes, at);
    }
    Ok(())
}

/// Fills a vector with the offsets where a record's value is written, in the order of its chain, in the data of its segment.
pub fn sites_of(bytes: &[u8], relocation: &Record, sites: &mut Vec<u16>) -> Result<(), AllocError>
    ensures { OnOk result (sites.new.items ≡ offsets_of bytes.now relocation.now) }
{
    sites.clear();
    match relocation {
        Record::Stored(fixup) => push_chain(bytes, fixup.offset, sites)?,
        Record::Added(fixup) => sites.push(fixup.offset)?,
        Record::System => {}
    }
    Ok(())
}
