//! A store whose files become others, and come back.
use w16_store::{MemStore, Store, StoreFault};

/// Files in memory, and others that take their place where a file TURN is asked for, until a file BACK is. As with a folder's files, that is
/// seen once the store is told that a call begins.
#[derive(Drop)]
pub struct Turning {
    first: MemStore,
    second: MemStore,
    turned: bool,
    /// Whether they are the others from the next call on.
    turns: bool,
}

impl Turning {
    pub fn new(first: MemStore, second: MemStore) -> Turning {
        Turning {
            first,
            second,
            turned: false,
            turns: false,
        }
    }

    pub fn refresh(&mut self) {
        self.turned = self.turns;
    }

    pub fn read_at(&mut self, name: &[u8], at: u64, buf: &mut [u8]) -> Result<(), StoreFault> {
        if self.turned {
            self.second.read_at(name, at, buf)
        } else {
            self.first.read_at(name, at, buf)
        }
    }

    pub fn len_of(&mut self, name: &[u8]) -> Result<u64, StoreFault> {
        match name {
            b"TURN" => self.turns = true,
            b"BACK" => self.turns = false,
            _ => {}
        }
        if self.turned {
            self.second.len_of(name)
        } else {
            self.first.len_of(name)
        }
    }
}
