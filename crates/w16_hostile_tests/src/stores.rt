//! The stores of these tests, as one type, and a machine over it: a proof meets a machine once for each type of store.
mod endless;
mod lying;
mod turning;

pub use endless::Endless;
pub use lying::{Lie, Lying};
use std::alloc::{AllocError, Global};
pub use turning::Turning;
use w16_play::lines::first_wrong_of;
use w16_play::machine::Machine;
use w16_store::{FuseStore, MemStore, Store, StoreFault, count_failure};

/// The harm that a store does.
#[derive(Drop)]
pub enum Harm {
    Failing(FuseStore<MemStore>),
    Turning(Turning),
    Lying(Lying),
    Endless(Endless),
}

/// A store that does some harm. It counts the failures that it tells.
#[derive(Drop)]
pub struct Hostile {
    harm: Harm,
    failures: u64,
}

/// A machine over such a store.
pub type HostileMachine = Machine<Hostile>;

impl Hostile {
    /// A store that does this, and has told of no failure yet.
    pub fn of(harm: Harm) -> Hostile {
        Hostile { harm, failures: 0 }
    }

    /// Files of which a read fails, counted from 1 on; none does where it is 0.
    pub fn failing(files: MemStore, read: u32) -> Hostile {
        Hostile::of(Harm::Failing(FuseStore::new(files, read)))
    }

    /// The machine of most of these tests: 4,096 bytes and 16 selectors.
    pub fn machine(self, alloc: Global) -> Result<HostileMachine, AllocError> {
        Machine::new(alloc, 4096, 16, self)
    }

    /// Plays texts on that machine one after another, and answers the place of the first that goes wrong, with its first wrong line; none where
    /// all go right.
    pub fn first_wrong(
        self,
        alloc: Global,
        texts: &[&str],
    ) -> Result<Option<(usize, usize)>, AllocError> {
        let mut machine = self.machine(alloc)?;
        first_wrong_of(&mut machine, alloc, texts)
    }
}

impl Store for Hostile {
    ghost use Rattle.std.specs.Prelude.{[]};

    ghost files = { λ _. [] };

    ghost failures = { λ s. s.failures };

    ghost is_honest = { ⊥ };

    fn read_at(&mut self, name: &[u8], at: u64, buf: &mut [u8]) -> Result<(), StoreFault> {
        let read = match &mut self.harm {
            Harm::Failing(store) => store.read_at(name, at, buf),
            Harm::Turning(store) => store.read_at(name, at, buf),
            Harm::Lying(store) => store.read_at(name, at, buf),
            Harm::Endless(store) => store.read_at(name, at, buf),
        };
        count_failure(&mut self.failures, read)
    }

    fn len_of(&mut self, name: &[u8]) -> Result<u64, StoreFault> {
        let len = match &mut self.harm {
            Harm::Failing(store) => store.len_of(name),
            Harm::Turning(store) => store.len_of(name),
            Harm::Lying(store) => store.len_of(name),
            Harm::Endless(store) => store.len_of(),
        };
        count_failure(&mut self.failures, len)
    }

    fn refresh(&mut self) {
        if let Harm::Turning(store) = &mut self.harm {
            store.refresh();
        }
    }
}
