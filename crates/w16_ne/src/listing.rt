//! A table of names, as it is put together.
ghost use Rattle.std.specs.Prelude.{◌≡◌, ◌==◌, ℕ, ◌≤◌, ◌++◌, [], ◌∷◌, List, length, OnOk, IfErr};
ghost use Rattle.w16_ne.specs.declared.fault.NeFault.TheVariants.{OutOfMemory};
ghost use Rattle.w16_ne.specs.Names.{Entry};
ghost use Rattle.w16_ne.specs.Listing.{IsListing};

use crate::fault::NeFault;
use crate::names::Names;
use std::alloc::Allocator;

/// The first name of a table, empty while there is none, and after names that were there before all its others.
#[derive(Drop)]
pub struct Listing<A: Allocator> {
    alloc: A,
    begun: bool,
    pub first: Vec<u8, A>,
    pub names: Names<A>,
}

impl<A: Allocator + Copy> Listing<A> {
    /// A table of no names, after these.
    pub fn new(alloc: A, names: Names<A>) -> Listing<A>
        ensures { IsListing names [] result }
    {
        Listing {
            alloc,
            begun: false,
            first: Vec::new(alloc),
            names,
        }
    }

    /// Adds a name of the table.
    pub fn add(&mut self, text: &[u8], ordinal: u16) -> Result<(), NeFault>
        requires { length text.now ≤ 255 }
        ensures ok { OnOk result ((before listed : List Entry) → IsListing before listed self.old → IsListing before (listed ++ (text.now, ordinal) ∷ []) self.new) }
        ensures err { IfErr result (λ e. e ≡ OutOfMemory) }
    {
        if self.begun {
            return self.names.push(text, ordinal);
        }
        self.begun = true;
        self.first = Vec::from_slice(self.alloc, text)?;
        Ok(())
    }

    /// Whether it has no name.
    pub fn is_empty(&self) -> bool
        ensures { (before listed : List Entry) → IsListing before listed self.now → result ≡ (length listed == 0) }
    {
        !self.begun
    }
}
