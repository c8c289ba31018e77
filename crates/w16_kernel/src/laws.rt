//! Laws of the machine's figures, and of descriptors. Each function does nothing: its contract is the law.
ghost use Rattle.std.specs.Prelude.{◌≡◌};
ghost use Rattle.w16_machine.specs.declared.access.TheConstants.{MOST_FILLED, MOST_READ};
ghost use Rattle.w16_kernel.specs.declared.growing.TheConstants.{MOST_NAME};
ghost use Rattle.w16_kernel.specs.Descriptors.{DescriptorsLaw};

use w16_store::Store;

/// The figures of calls are these numbers: the most bytes that one reads or fills, and the longest name of a missing
/// file. Definitions and code share the constants, so only this law would see a wrong one.
pub fn figures_of_calls()
    ensures read { MOST_READ ≡ 1024 }
    ensures filled { MOST_FILLED ≡ 65536 }
    ensures name { MOST_NAME ≡ 259 }
{}

/// What a selector tells stays with every step that takes no bytes of an object, and frees, loads and fetches none: locks, sizes, flags, questions and
/// orders of use, far accesses that fetch nothing, and local calls for which no heap may grow.
pub fn other_steps_keep_descriptors<S: Store>()
    ensures { DescriptorsLaw S.is_honest }
{}
