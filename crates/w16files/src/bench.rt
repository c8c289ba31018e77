//! A module file, and what is asked of it.
//!
//! | Line | What it is |
//! |---|---|
//! | `file NAME AT=BYTE len=COUNT` | takes a file of the folder, with bytes changed, at hexadecimal places, or of another length |
//! | `targets POINTER ..` | takes the targets of the records for images, the selector and the offset hexadecimal |
//! | `tables` | what the readers of its module give, or its fault |
//! | `sum NAME AT=BYTE len=COUNT` | the same as a sum, of a file that is taken so, with `!` where its text or its JSON says otherwise |
//! | `failures` | `told` where each read fails in turn and each failure is told |
//! | `fuse NUMBER` | five lengths and reads, of which the read of this number fails |
//! | `place TYPE ID` | the number of a resource by `#` and a number or by bytes, hexadecimal |
//! | `imported OFFSET`, `part AT LENGTH` | an imported name, its offset hexadecimal; a part of the file |
//! | `scratch` | what the scratch of the row holds |
//! | `check SEGMENT LIE READ` | a check of a segment; where the store lies at a read (0: at each) by `missing`, `short`, `device`, or a byte |
//! | `image SEGMENT` | its bytes, relocated with the targets |
//! | `text NAME`, `json NAME` | what is printed of it, and the verdict |
//! | `resources` | the resources that are taken out of it |
use crate::liar::Liar;
use crate::read::{put_failures, put_fuse, put_resources, put_shown, put_sum, show, store_of};
use crate::relocation::{lie_of, put_image, put_imported, put_part, put_scratch, targets_of};
use crate::tables::{put_place, put_tables};
use crate::words::{Put, Words, hexadecimal, number, split, word};
use std::alloc::{AllocError, Global};
use std::marker::Model;
use std::{fs, io};
use w16_ne::{Module, read_module};
use w16_reloc::{Far, Scratch, check};
use w16_store::MemStore;

/// A file in a store, with a scratch and targets for its segments. To a proof it has no value.
#[derive(Drop)]
struct Bench {
    alloc: Global,
    bytes: Vec<u8>,
    store: Liar,
    targets: Vec<Far>,
    scratch: Scratch,
}

impl Model for Bench {
    ghost use Rattle.std.specs.Prelude.{ℕ};

    ghost Value = { ℕ };

    ghost view = { λ _. 0 };
}

/// Makes a change of a file, if there is such a place in it.
fn change(bytes: &mut Vec<u8>, change: &str) -> Put {
    let (key, value) = change.split_once("=").unwrap_or((change, ""));
    if key == "len" {
        return bytes.resize(value.parse::<u16>().unwrap_or(0) as usize, 0);
    }
    if let Some(place) = bytes.get_mut(hexadecimal(key) as usize) {
        *place = (hexadecimal(value) % 256) as u8;
    }
    Ok(())
}

impl Bench {
    /// No file yet.
    fn new(alloc: Global) -> Result<Bench, AllocError> {
        Ok(Bench {
            alloc,
            bytes: Vec::new(alloc),
            store: Liar::new(MemStore::new(alloc)),
            targets: Vec::new(alloc),
            scratch: Scratch::new(alloc)?,
        })
    }

    /// Takes a file of the folder, with changes.
    fn take(&mut self, rt: &HostRuntime, words: &mut Words<'_>) -> io::Result<()> {
        self.bytes = fs::read(rt, word(words))?;
        for word in words {
            change(&mut self.bytes, word)?;
        }
        self.store = Liar::new(store_of(self.alloc, &self.bytes)?);
        Ok(())
    }

    /// Answers what is asked of a segment.
    fn ask_segment(
        &mut self,
        out: &mut String,
        module: &Module,
        asked: &str,
        words: &mut Words<'_>,
    ) -> Put {
        let segment = number(words) as usize;
        if segment == 0 || module.segment_count() < segment {
            return out.push_str("no such segment");
        }
        self.store.begin(lie_of(words));
        match check(&mut self.store, b"FILE", module, segment, &mut self.scratch) {
            Ok(()) if asked == "image" => put_image(out, self.alloc, &self.scratch, &self.targets),
            Ok(()) => out.push_str("sound"),
            Err(fault) => write!(out, "{fault:?}"),
        }
    }

    /// Answers what is asked of its module.
    fn ask_module(
        &mut self,
        out: &mut String,
        module: &Module,
        asked: &str,
        words: &mut Words<'_>,
    ) -> Put {
        match asked {
            "tables" => put_tables(out, module),
            "place" => put_place(out, module, words),
            "imported" => put_imported(out, &mut self.store, module, hexadecimal(word(words))),
            _ => self.ask_segment(out, module, asked, words),
        }
    }

    /// Answers what is asked of what is read of it.
    fn ask_read(&mut self, out: &mut String, asked: &str, words: &mut Words<'_>) -> Put {
        match read_module(self.alloc, &mut self.store, b"file") {
            Ok(module) => self.ask_module(out, &module, asked, words),
            Err(fault) => write!(out, "{fault:?}"),
        }
    }

    /// Answers what is asked of a file, whose store tells the truth at first.
    fn ask(&mut self, out: &mut String, asked: &str, words: &mut Words<'_>) -> Put {
        self.store.begin(None);
        let (alloc, bytes) = (self.alloc, &self.bytes);
        let (store, scratch) = (&mut self.store, &mut self.scratch);
        match asked {
            "failures" => put_failures(out, alloc, store),
            "fuse" => put_fuse(out, alloc, bytes, (number(words) % 65_536) as u32),
            "part" => put_part(out, store, scratch, number(words), number(words)),
            "scratch" => put_scratch(out, scratch),
            "text" => put_shown(out, &show(alloc, word(words), bytes, false)?),
            "json" => put_shown(out, &show(alloc, word(words), bytes, true)?),
            "resources" => put_resources(out, alloc, bytes),
            _ => self.ask_read(out, asked, words),
        }
    }

    /// Answers a line.
    fn answer(&mut self, rt: &HostRuntime, line: &str, out: &mut String) -> io::Result<()> {
        let mut words = split(line).0.split(' ');
        match word(&mut words) {
            "" | "#" => {}
            "file" => self.take(rt, &mut words)?,
            "sum" => {
                self.take(rt, &mut words)?;
                put_sum(out, self.alloc, &self.bytes)?;
            }
            "targets" => self.targets = targets_of(self.alloc, &mut words)?,
            asked => self.ask(out, asked, &mut words)?,
        }
        Ok(())
    }
}

/// Adds to others the answers of lines, one of each.
pub fn put_answers(rt: &HostRuntime, lines: &str, out: &mut String) -> io::Result<()> {
    let mut bench = Bench::new(rt.alloc())?;
    for line in lines.split('\n') {
        bench.answer(rt, line, out)?;
        out.push_str("\n")?;
    }
    Ok(())
}
