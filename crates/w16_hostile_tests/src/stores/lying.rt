//! A store that lies in lengths and in bytes, and that misses what it had.
use w16_store::{MemStore, Store, StoreFault};

/// What is answered in place of what is so, and of each byte and each length the bits that are kept, and then those that are changed.
pub type Lie = (Result<(), StoreFault>, u64, u64);

/// Files of which that many lies are told after that many questions. Where a file HONEST is asked for there are no more, and it is missing if one
/// was told, else it can't be read.
#[derive(Drop)]
pub struct Lying {
    files: MemStore,
    lie: Lie,
    before: u32,
    lies: u32,
    told: bool,
}

impl Lying {
    pub fn new(files: MemStore, lie: Lie, before: u32, lies: u32) -> Lying {
        Lying {
            files,
            lie,
            before,
            lies,
            told: false,
        }
    }

    /// Whether a lie is told to this question.
    fn lies(&mut self) -> bool {
        let lies = self.before == 0 && self.lies > 0;
        self.before = self.before.saturating_sub(1);
        if lies {
            self.lies = self.lies.saturating_sub(1);
            self.told = true;
        }
        lies
    }

    pub fn read_at(&mut self, name: &[u8], at: u64, buf: &mut [u8]) -> Result<(), StoreFault> {
        let read = self.files.read_at(name, at, buf);
        if !self.lies() {
            return read;
        }
        let (answer, kept, changed) = self.lie;
        for byte in buf.iter_mut() {
            *byte = (((u64::from(*byte) & kept) ^ changed) % 256) as u8;
        }
        answer
    }

    pub fn len_of(&mut self, name: &[u8]) -> Result<u64, StoreFault> {
        if name == b"HONEST".as_slice() {
            self.lies = 0;
            return Err(if self.told {
                StoreFault::Missing
            } else {
                StoreFault::Device
            });
        }
        let len = self.files.len_of(name)?;
        if !self.lies() {
            return Ok(len);
        }
        let (answer, kept, changed) = self.lie;
        answer.map(|()| (len & kept) ^ changed)
    }
}
