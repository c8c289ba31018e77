//! Which entries of a local heap are free.
ghost use Rattle.std.specs.Prelude.{◌≡◌, ◌<◌, ℕ, length, nat_le, replicate, set, IfOk};
ghost use Rattle.std.specs.List.{position};
ghost use Rattle.w16_machine.specs.declared.local.TheConstants.{LOCAL_ENTRIES};

use std::alloc::{AllocError, Allocator};
use std::marker::Model;
use w16_machine::local::LOCAL_ENTRIES;
use w16_tree::Maxima;

/// For each entry 1 where it is free, else 0. A heap uses few of its entries, so only those up to the last that was ever used are kept: to begin
/// takes no step for each.
#[derive(Drop)]
pub(crate) struct FreeEntries<A: Allocator> {
    kept: Maxima<A>,
    /// All entries from here on are free.
    used: usize,
}

impl<A: Allocator> Model for FreeEntries<A> {
    ghost use Rattle.std.specs.Prelude.{List, ℕ};
    ghost use Rattle.w16_local.specs.FreeEntries.{all_of, AreKept};

    ghost Value = { List ℕ };

    ghost view = { λ s. all_of s.used s.kept };

    ghost invariant = { λ s. AreKept s.used s.kept };
}

impl<A: Allocator> FreeEntries<A> {
    /// All are free. An error is that there was no memory.
    pub fn new(alloc: A) -> Result<FreeEntries<A>, AllocError>
        ensures { IfOk result (λ made. made ≡ replicate LOCAL_ENTRIES 1) }
    {
        let kept = Maxima::zeros(alloc, LOCAL_ENTRIES as usize)?;
        Ok(FreeEntries { kept, used: 0 })
    }

    /// The lowest free entry.
    pub fn lowest(&self) -> Option<usize>
        ensures { result ≡ position (nat_le 1) self.now }
    {
        match self.kept.first_at_least(1) {
            Some(entry) => Some(entry),
            None if self.used < LOCAL_ENTRIES as usize => Some(self.used),
            None => None,
        }
    }

    /// An entry is free, 1, or not, 0.
    pub fn set(&mut self, entry: usize, value: u32)
        requires { entry < length self.old }
        ensures { self.new ≡ set self.old entry value }
    {
        for free in self.used..entry {
            self.kept.set(free, 1);
        }
        self.kept.set(entry, value);
        self.used = self.used.max(entry + 1);
    }
}
