//! A machine over module files, which plays scripts.
ghost use Rattle.std.specs.Prelude.{ℕ};

use crate::held::HeldKernel;
use std::alloc::{AllocError, Allocator, Global};
use std::io::{Read, Write};
use std::marker::Model;
use w16_kernel::Kernel;
use w16_model::{GRAIN, MOST_SLOTS};
use w16_script::{Ended, RunFault, run};
use w16_store::Store;

/// A machine. To a proof it has no value, and its methods have no clauses, so no test carries what a run says of it.
#[derive(Drop)]
pub struct Machine<S: Store + Drop, A: Allocator + Copy = Global> {
    alloc: A,
    held: HeldKernel<S, A>,
}

impl<S: Store + Drop, A: Allocator + Copy> Model for Machine<S, A> {
    ghost Value = { ℕ };

    ghost view = { λ _. 0 };
}

impl<S: Store + Drop, A: Allocator + Copy> Machine<S, A> {
    /// A machine of that many bytes and selectors over a store.
    pub fn new(alloc: A, memory: u32, selectors: u32, store: S) -> Result<Self, AllocError> {
        let memory = memory - memory % GRAIN;
        let kernel = Kernel::new(alloc, memory, selectors.min(MOST_SLOTS), store)?;
        let held = HeldKernel { kernel };
        Ok(Machine { alloc, held })
    }

    /// Plays a script that a reader gives, whose replies a writer takes, and answers how it ended. Registers begin anew with each.
    pub fn run<R: Read, W: Write>(
        &mut self,
        reader: &mut R,
        writer: &mut W,
    ) -> Result<Ended, RunFault> {
        run(self.alloc, reader, writer, &mut self.held.kernel)
    }

    /// Plays a script whose replies are put after the output, and answers how it ended.
    pub fn play(&mut self, script: &[u8], output: &mut Vec<u8>) -> Result<Ended, RunFault> {
        let mut reader = script;
        self.run(&mut reader, output)
    }
}
