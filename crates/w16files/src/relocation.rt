//! Images of segments, and what a loader reads beside them.
use crate::liar::{Liar, Lie};
use crate::words::{Put, Words, hexadecimal, put_hexadecimal, put_quoted, word};
use std::alloc::{AllocError, Global};
use w16_ne::{Module, imported_name};
use w16_reloc::{Far, Scratch, apply, read_part};
use w16_store::StoreFault;

/// The lie that the next words tell, if any.
pub fn lie_of(words: &mut Words<'_>) -> Option<Lie> {
    let told = match word(words) {
        "" => return None,
        "missing" => Err(StoreFault::Missing),
        "short" => Err(StoreFault::Short),
        "device" => Err(StoreFault::Device),
        byte => Ok((hexadecimal(byte) % 256) as u8),
    };
    let read = hexadecimal(word(words));
    Some(Lie { told, read })
}

/// The far pointers that the next words are, a selector's digits and an offset's each.
pub fn targets_of(alloc: Global, words: &mut Words<'_>) -> Result<Vec<Far>, AllocError> {
    let mut targets = Vec::new(alloc);
    for word in words {
        let pointer = hexadecimal(word);
        let (selector, offset) = ((pointer >> 16 & 0xffff) as u16, (pointer & 0xffff) as u16);
        targets.push(Far { selector, offset })?;
    }
    Ok(targets)
}

/// Adds the bytes of a segment that was checked to an answer, relocated with these targets.
pub fn put_image(out: &mut String, alloc: Global, scratch: &Scratch, targets: &[Far]) -> Put {
    let records = scratch.records();
    if records.len() != targets.len() {
        return write!(out, "{} records", records.len());
    }
    let mut bytes = Vec::from_slice(alloc, scratch.bytes())?;
    apply(&mut bytes, records, targets);
    put_hexadecimal(out, &bytes)
}

/// Adds what a scratch holds to an answer.
pub fn put_scratch(out: &mut String, scratch: &Scratch) -> Put {
    put_quoted(out, scratch.bytes())?;
    write!(out, ", {} records", scratch.records().len())
}

/// Adds what a scratch holds to an answer, when a part of a file was read into it.
pub fn put_part(
    out: &mut String,
    store: &mut Liar,
    scratch: &mut Scratch,
    at: u64,
    len: u64,
) -> Put {
    let len = len.min(65_536) as usize;
    write!(out, "{:?} ", read_part(store, b"FILE", at, len, scratch))?;
    put_scratch(out, scratch)
}

/// Adds an imported name to an answer.
pub fn put_imported(out: &mut String, store: &mut Liar, module: &Module, offset: u64) -> Put {
    let mut room = [0u8; 255];
    match imported_name(store, b"FILE", module, (offset % 65_536) as u16, &mut room) {
        Ok(len) => put_quoted(out, &room[..len]),
        Err(fault) => write!(out, "{fault:?}"),
    }
}
