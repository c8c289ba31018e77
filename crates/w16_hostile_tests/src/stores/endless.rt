//! A store whose files import one another without an end.
use w16_store::{MemStore, Store, StoreFault};

/// Each name of four capitals has a file: a library of that name, made from the sample TAPP.EXE, which imports the one of the next name. 676 come
/// one after another, three times as many as have handles.
#[derive(Drop)]
pub struct Endless {
    pub samples: MemStore,
}

/// A letter of the next name: the last one changes, and the third where the last begins anew.
fn next_letter(name: &[u8], place: usize) -> u8 {
    let letter = name.get(place).copied().unwrap_or(b'A');
    let changes = place == 3 || place == 2 && name.get(3) == Some(&b'Z');
    match letter {
        b'Z' if changes => b'A',
        _ if changes => letter.wrapping_add(1),
        _ => letter,
    }
}

/// The byte of such a file at an offset, where the sample has another: its flags say a library, and its names are the file's and the next.
fn byte_at(name: &[u8], offset: u64, byte: u8) -> u8 {
    match offset {
        0x4d => 0x80,
        0x89..=0x8c => name
            .get(offset.wrapping_sub(0x89) as usize)
            .copied()
            .unwrap_or(b'A'),
        0x94..=0x97 => next_letter(name, offset.wrapping_sub(0x94) as usize),
        _ => byte,
    }
}

impl Endless {
    pub fn read_at(&mut self, name: &[u8], at: u64, buf: &mut [u8]) -> Result<(), StoreFault> {
        self.samples.read_at(b"TAPP.EXE", at, buf)?;
        for (i, byte) in buf.iter_mut().enumerate() {
            *byte = byte_at(name, at.saturating_add(i as u64), *byte);
        }
        Ok(())
    }

    pub fn len_of(&mut self) -> Result<u64, StoreFault> {
        self.samples.len_of(b"TAPP.EXE")
    }
}
