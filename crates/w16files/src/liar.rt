//! A store that lies.
use w16_store::{MemStore, Store, StoreFault, count_failure};

/// What is told in place of the truth, each byte this one or a fault, and at which read, counted from 1; 0 is at each.
#[derive(Clone, Copy)]
pub struct Lie {
    pub told: Result<u8, StoreFault>,
    pub read: u64,
}

/// A store in memory that may lie.
#[derive(Drop)]
pub struct Liar {
    inner: MemStore,
    lie: Option<Lie>,
    reads: u64,
    failures: u64,
}

impl Liar {
    /// One that tells the truth.
    pub fn new(inner: MemStore) -> Liar {
        Liar {
            inner,
            lie: None,
            reads: 0,
            failures: 0,
        }
    }

    /// Counts its reads from here on, and lies at one, or tells the truth again.
    pub fn begin(&mut self, lie: Option<Lie>) {
        self.lie = lie;
        self.reads = 0;
    }

    /// How many reads there were since then.
    pub fn reads(&self) -> u64 {
        self.reads
    }
}

impl Store for Liar {
    ghost files = { λ s. s.inner };

    ghost failures = { λ s. s.failures };

    ghost is_honest = { ⊥ };

    fn read_at(&mut self, name: &[u8], at: u64, buf: &mut [u8]) -> Result<(), StoreFault> {
        self.reads = self.reads.saturating_add(1);
        match self.lie {
            Some(lie) if lie.read == 0 || lie.read == self.reads => {
                let told = count_failure(&mut self.failures, lie.told);
                buf.fill(told?);
                Ok(())
            }
            _ => self.inner.read_at(name, at, buf),
        }
    }

    fn len_of(&mut self, name: &[u8]) -> Result<u64, StoreFault> {
        self.inner.len_of(name)
    }

    fn refresh(&mut self) {}
}
