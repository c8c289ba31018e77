//! What the readers of a module give.
use crate::words::{Put, Words, hexadecimal, put_hexadecimal, put_text, word};
use w16_ne::{Module, ResourceName};

/// Names that are looked up.
static PROBES: &[&str] = &[
    "GETA", "getb", "getB", "GET", "TLIB", "TAPP", "TRES", "T", "",
];

/// Adds the numbers and texts of a header to an answer.
fn put_header(out: &mut String, module: &Module) -> Put {
    write!(out, "header {} ", module.place())?;
    put_hexadecimal(out, module.header())?;
    let (library, names) = (module.library(), module.imported_names());
    write!(out, " / library {library} / imported names {names} / name ")?;
    put_text(out, module.name())?;
    out.push_str(" / description ")?;
    put_text(out, module.description())
}

/// Adds the segments and what it refers to to an answer.
fn put_segments(out: &mut String, module: &Module) -> Put {
    for i in 0..module.segment_count() {
        write!(out, " / {:?}", module.segment(i + 1))?;
    }
    for i in 0..module.reference_count() {
        out.push_str(" / reference ")?;
        put_text(out, module.reference(i + 1))?;
    }
    Ok(())
}

/// Adds where ordinals lead to an answer, from 0 to the first behind the last.
fn put_entries(out: &mut String, module: &Module) -> Put {
    for ordinal in 0..u16::MAX {
        write!(out, " / {ordinal}: {:?}", module.entry(ordinal))?;
        if usize::from(ordinal) > module.entry_count() {
            break;
        }
    }
    Ok(())
}

/// Adds the names of entries to an answer, and how many of them are resident.
fn put_names(out: &mut String, module: &Module) -> Put {
    for i in 0..module.name_count() {
        let (name, ordinal) = module.entry_name(i);
        write!(out, " / name {ordinal} ")?;
        put_text(out, name)?;
    }
    write!(out, " / {} resident", module.resident_count())?;
    for probe in PROBES {
        write!(out, " / '{probe}' {}", module.ordinal_of(probe.as_bytes()))?;
    }
    Ok(())
}

/// Adds the resources to an answer, from number 0 to the first behind the last.
fn put_resources(out: &mut String, module: &Module) -> Put {
    for number in 0..usize::MAX {
        write!(out, " / {:?}", module.resource(number))?;
        if number > module.resource_count() {
            break;
        }
    }
    Ok(())
}

/// Adds all that a module's readers give to an answer.
pub fn put_tables(out: &mut String, module: &Module) -> Put {
    put_header(out, module)?;
    put_segments(out, module)?;
    put_entries(out, module)?;
    put_names(out, module)?;
    put_resources(out, module)
}

/// The type or the id that a word is; its bytes are put into the room.
fn label<'a>(word: &str, room: &'a mut [u8; 8]) -> ResourceName<'a> {
    if let Some(digits) = word.strip_prefix("#") {
        return ResourceName::Number(digits.parse::<u16>().unwrap_or(0));
    }
    *room = hexadecimal(word).to_be_bytes();
    ResourceName::Text(&room[8usize.saturating_sub(word.len() / 2)..])
}

/// Adds the number of the resource of a type and an id to an answer.
pub fn put_place(out: &mut String, module: &Module, words: &mut Words<'_>) -> Put {
    let (mut kind, mut id) = ([0u8; 8], [0u8; 8]);
    let (kind, id) = (label(word(words), &mut kind), label(word(words), &mut id));
    write!(out, "{:?}", module.place_of(kind, id))
}
