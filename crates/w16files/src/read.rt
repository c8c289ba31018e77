//! What is read and printed of a file as a whole.
use crate::liar::{Liar, Lie};
use crate::tables::put_tables;
use crate::words::{Put, put_text};
use std::alloc::{AllocError, Global};
use w16_ne::{Module, NeFault, read_module};
use w16_show::{Parts, Resources, Verdict, show_json, show_text};
use w16_store::{FuseStore, MemStore, Store, StoreFault};

/// A store of these bytes.
pub fn store_of(alloc: Global, bytes: &[u8]) -> Result<MemStore, AllocError> {
    let mut store = MemStore::new(alloc);
    store.add(b"FILE", bytes)?;
    Ok(store)
}

/// Adds a sum over all that a module's readers give to an answer. The order counts.
fn put_sum_of(out: &mut String, alloc: Global, module: &Module) -> Put {
    let mut text = String::new(alloc);
    put_tables(&mut text, module)?;
    let mut sum = 0u32;
    for byte in text.as_bytes() {
        sum = sum.wrapping_mul(31).wrapping_add(u32::from(*byte)) % 65_521;
    }
    write!(out, "{sum:04x}")
}

/// What is printed of a file.
#[derive(Drop)]
pub struct Shown {
    text: String,
    verdict: Verdict,
}

/// What is printed of a file as text, or as JSON.
pub fn show(alloc: Global, name: &str, bytes: &[u8], json: bool) -> Result<Shown, AllocError> {
    let mut text = Vec::new(alloc);
    let printed = if json {
        show_json(alloc, &mut text, name, bytes)
    } else {
        show_text(alloc, &mut text, name, bytes, Parts::all())
    };
    // A vector fails only for want of memory.
    let Ok(verdict) = printed else {
        return Err(AllocError);
    };
    let text = String::from_utf8_lossy(alloc, &text)?;
    Ok(Shown { text, verdict })
}

/// Whether a file's text and its JSON tell its fault, or a verdict where it has none.
fn is_shown(alloc: Global, bytes: &[u8], fault: Option<NeFault>) -> Result<bool, AllocError> {
    let text = show(alloc, "F", bytes, false)?;
    let json = show(alloc, "F", bytes, true)?;
    let (told, begin, text_end, json_end) = match text.verdict {
        Verdict::NotAccepted(e) => (Some(e.fault), "{\"fault\":\"", "", ""),
        Verdict::NotSound(_) => (None, "{\"fault\":null", "", ",\"sound\":false}"),
        Verdict::Sound => (None, "{\"fault\":null", "\nsound\n", ",\"sound\":true}"),
    };
    Ok(
        told == fault
            && text.verdict == json.verdict
            && text.text.starts_with("F: not accepted: ") == fault.is_some()
            && text.text.ends_with(text_end)
            && json.text.starts_with(begin)
            && json.text.ends_with(json_end),
    )
}

/// Adds what is read of a file to an answer: the sum, or the fault; and a sign where its text or its JSON says otherwise.
pub fn put_sum(out: &mut String, alloc: Global, bytes: &[u8]) -> Put {
    let mut fault = None;
    match read_module(alloc, &mut store_of(alloc, bytes)?, b"file") {
        Ok(module) => put_sum_of(out, alloc, &module)?,
        Err(e) => {
            write!(out, "{e:?}")?;
            fault = Some(e);
        }
    }
    if !is_shown(alloc, bytes, fault)? {
        out.push('!')?;
    }
    Ok(())
}

/// Adds to an answer whether a file is read, but for each of its reads failing in turn, which is told each time as it is.
pub fn put_failures(out: &mut String, alloc: Global, store: &mut Liar) -> Put {
    let told = Err(StoreFault::Device);
    for read in 1..101u64 {
        store.begin(Some(Lie { told, read }));
        let fault = read_module(alloc, store, b"FILE").err();
        if store.reads() < read && fault.is_none() {
            return out.push_str("told");
        }
        if store.reads() != read || fault != Some(NeFault::Store(StoreFault::Device)) {
            return write!(out, "read {read}: {fault:?}");
        }
    }
    Ok(())
}

/// Adds five lengths and reads of a byte to an answer, and how many reads there were, where the read of this number fails.
pub fn put_fuse(out: &mut String, alloc: Global, bytes: &[u8], fuse: u32) -> Put {
    let mut store = FuseStore::new(store_of(alloc, bytes)?, fuse);
    for _ in 0..5u32 {
        let mut room = [0u8];
        let len = store.len_of(b"FILE");
        let read = store.read_at(b"FILE", 0, &mut room);
        write!(out, "({} {len:?} {read:?} {room:?})", store.reads())?;
    }
    Ok(())
}

/// Adds what is printed of a file to an answer, and the verdict.
pub fn put_shown(out: &mut String, shown: &Shown) -> Put {
    for line in shown.text.split('\n') {
        if !line.is_empty() {
            write!(out, "{line} / ")?;
        }
    }
    write!(out, "{:?}", shown.verdict)
}

/// Adds the names and the bytes of resources to an answer, up to the first number that has none.
fn put_each(out: &mut String, alloc: Global, resources: &Resources, bytes: &[u8]) -> Put {
    for i in 0..resources.len() {
        write!(out, "{:?} ", resources.file_name(alloc, i + 1)?)?;
        put_text(
            out,
            &resources
                .bytes(alloc, bytes, i + 1)?
                .unwrap_or(Vec::new(alloc)),
        )?;
        out.push_str(", ")?;
    }
    let next = resources.len().wrapping_add(1);
    write!(out, "{:?}", resources.file_name(alloc, next)?)
}

/// Adds the resources that are taken out of a file to an answer.
pub fn put_resources(out: &mut String, alloc: Global, bytes: &[u8]) -> Put {
    match Resources::of(alloc, bytes)? {
        Some(resources) => put_each(out, alloc, &resources, bytes),
        None => out.push_str("no module"),
    }
}
