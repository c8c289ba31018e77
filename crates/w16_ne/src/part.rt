//! The parts of a module file, and faults that tell in which part they are.
ghost use Rattle.std.specs.Prelude.{◌≡◌, Ok, Err, IfOk, IfErr};

use crate::fault::NeFault;
use thiserror::Error;

/// The parts of a module file, in the order in which they are read.
#[derive(Debug, Clone, Copy, PartialEq, Eq)]
pub enum FilePart {
    /// The header that begins with `MZ`.
    OldHeader,
    /// The header that begins with `NE`, and its fields.
    Header,
    /// The segment table, and the ends of the segments' data and of their relocation records.
    SegmentTable,
    /// The resident names.
    ResidentNames,
    /// The module references, and the names that they lead to.
    References,
    /// The entry table.
    EntryTable,
    /// The nonresident names.
    NonresidentNames,
    /// The resource table, its texts, and the places of the resources.
    ResourceTable,
}

/// A fault, and the part of the file that was read when it was met.
#[derive(Debug, Clone, Copy, PartialEq, Eq, Drop, Error)]
#[error("{fault}")]
pub struct PartFault {
    pub part: FilePart,
    pub fault: NeFault,
}

/// What was read of a part; a fault is that part's.
pub fn in_part<T>(part: FilePart, read: Result<T, NeFault>) -> Result<T, PartFault>
    ensures ok { IfOk result (λ x. read ≡ Ok x) }
    ensures err { IfErr result (λ e. (read ≡ Err e.fault) × (e.part ≡ part)) }
{
    match read {
        Ok(read) => Ok(read),
        Err(fault) => Err(PartFault { part, fault }),
    }
}
