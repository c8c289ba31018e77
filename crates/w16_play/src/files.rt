//! Module files, which are made from text.
//!
//! A text of files names each by a sample with its changes, and commas divide them: `TLIB.DLL C6=01 C7=00 as=A.DLL`. A change is a byte at an offset,
//! both hexadecimal, `as=` and another name, or `len=` and how many bytes it has then, those that weren't there zeros. Behind its last byte come
//! `put=` and a text, `hex=` and bytes, hexadecimal, and words of a table of resources, hexadecimal: `block=TYPE.COUNT`, and as often `res=PLACE.LENGTH.FLAGS.ID`, in units.
use std::alloc::{AllocError, Global};
use w16_store::MemStore;

/// The samples, each from its new header on, in hexadecimal: a library of two code segments that may be discarded, of which the first is loaded
/// at once and leads to the second; an application of one such segment that imports three entries of it, of which the last isn't there; and a
/// library of no segments.
static SAMPLES: &[(&str, &str)] = &[
    (
        "TLIB.DLL",
        "
4e45050a67000e000000000000800000
00000000000000000000000002000000
050040005000500066006600b5000000
01000400000002000000000000000a03
0c001000501110000f00080010100800
04544c49420000044745544101000447
45544202000000010101000001ff01cd
3f020400000154000000000000000000
9a060000009affff0000b81000cb9090
0200030001000200040005040b000200
04000000000000000000000000000000
01020304cb909090
",
    ),
    (
        "TAPP.EXE",
        "
4e45050a5d0001000000000000000000
00000000000000000000000001000100
00004000480048005000520000000000
00000400000002000000000000000a03
0a001000501110000454415050000000
01000004544c49420447455442000000
9affff00009affff00009affff0000cb
03000301010001000100030206000100
060003010b0001000900
",
    ),
    (
        "TRES.DLL",
        "
4e45050a600001000000000000800000
00000000000000000000000000000000
00004000400058006000600000000000
00000400000002000000000000000a03
04000a800100000000000b0001003010
01800000000000000454524553000000
00000000000000000000000000000000
48656c6c6f2c207265736f7572636521
",
    ),
];

/// A file, and what it is named.
#[derive(Drop)]
pub struct File<'a> {
    pub name: &'a str,
    pub bytes: Vec<u8>,
}

/// The lines of a sample; none where there is no such sample.
fn text_of(name: &str) -> &'static str {
    for (sample, text) in SAMPLES {
        if *sample == name {
            return text;
        }
    }
    ""
}

/// Puts bytes, which are hexadecimal, after others.
fn put_bytes(bytes: &mut Vec<u8>, digits: &str) -> Result<(), AllocError> {
    for digits in digits.as_bytes().chunks(32) {
        let mut room = [0u8; 16];
        let count = (digits.len() / 2).min(16);
        let part = &mut room[..count];
        if hex::decode_to_slice(digits, part).is_ok() {
            bytes.extend_from_slice(part)?;
        }
    }
    Ok(())
}

/// The bytes of a sample: an old header, which names the place after it, and the lines.
fn bytes_of(alloc: Global, name: &str) -> Result<Vec<u8>, AllocError> {
    let mut bytes = vec![in alloc; 0u8; 64]?;
    bytes[0] = b'M';
    bytes[1] = b'Z';
    bytes[0x3c] = 0x40;
    for line in text_of(name).split_ascii_whitespace() {
        put_bytes(&mut bytes, line)?;
    }
    Ok(bytes)
}

/// The number that hexadecimal digits are.
fn hexadecimal(digits: &str) -> usize {
    u32::from_str_radix(digits, 16).unwrap_or(u32::MAX) as usize
}

/// The number that decimal digits are.
fn decimal(digits: &str) -> usize {
    u32::from_str_radix(digits, 10).unwrap_or(u32::MAX) as usize
}

/// Puts words, which dots divide, after others, and zeros up to that many.
fn put_words(bytes: &mut Vec<u8>, text: &str, count: usize) -> Result<(), AllocError> {
    let mut words = text.split('.');
    for _ in 0..count {
        let word = (hexadecimal(words.next().unwrap_or("0")) % 65_536) as u16;
        bytes.extend_from_slice(&word.to_le_bytes())?;
    }
    Ok(())
}

impl<'a> File<'a> {
    /// Puts another byte at an offset.
    fn put(&mut self, at: &str, byte: &str) {
        if let Some(place) = self.bytes.get_mut(hexadecimal(at)) {
            *place = (hexadecimal(byte) % 256) as u8;
        }
    }

    /// Makes a change, which has a key and a value.
    fn change(&mut self, key: &str, value: &'a str) -> Result<(), AllocError> {
        match key {
            "block" => return put_words(&mut self.bytes, value, 4),
            "res" => return put_words(&mut self.bytes, value, 6),
            "hex" => return put_bytes(&mut self.bytes, value),
            "put" => return self.bytes.extend_from_slice(value.as_bytes()),
            "len" => return self.bytes.resize(decimal(value), 0),
            "as" => self.name = value,
            _ => self.put(key, value),
        }
        Ok(())
    }
}

/// The file that a part of a text says.
pub fn file_of(alloc: Global, text: &str) -> Result<File<'_>, AllocError> {
    let (name, changes) = text.split_once(" ").unwrap_or((text, ""));
    let bytes = bytes_of(alloc, name)?;
    let mut file = File { name, bytes };
    for word in changes.split_ascii_whitespace() {
        if let Some((key, value)) = word.split_once("=") {
            file.change(key, value)?;
        }
    }
    Ok(file)
}

/// Puts the file that a part of a text says into a store.
fn put_file(alloc: Global, store: &mut MemStore, text: &str) -> Result<(), AllocError> {
    let file = file_of(alloc, text)?;
    store.add(file.name.as_bytes(), file.bytes.as_slice())
}

/// A store of the files that a text says; none where it is empty.
pub fn store_of(alloc: Global, text: &str) -> Result<MemStore, AllocError> {
    let mut store = MemStore::new(alloc);
    if text.is_empty() {
        return Ok(store);
    }
    for part in text.split(", ") {
        put_file(alloc, &mut store, part)?;
    }
    Ok(store)
}
