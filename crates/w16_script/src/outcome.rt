//! How a run ends.
ghost use Rattle.std.specs.Prelude.{◌≡◌};

use thiserror::Error;

/// Why a run ended before its script did.
#[derive(Debug, Clone, Copy, PartialEq, Eq, Drop, Error)]
pub enum RunFault {
    /// The reader failed. All that was read before was run, and its replies were written.
    #[error("the script can't be read")]
    Read,
    /// The writer failed at a write, or took nothing: the line that it failed at was run; a front of its reply
    /// was written, and the replies of all earlier lines. Or it failed at the flush before a read: all that was
    /// read before was run, its replies were written, and nothing more was read.
    #[error("the replies can't be written")]
    Write,
    /// The host has no memory: for the buffer that a run needs at its start, and nothing was read; or for the local heap of a `LocalInit`,
    /// a `Builtin`, or a load, whose line wasn't run. The replies of all earlier lines were written.
    #[error("out of memory")]
    Memory,
    /// A line has more than 4,096 bytes before its LF, or a byte stands after the millionth line end. All
    /// lines that ended before were run, and their replies were written.
    #[error("a line has more than 4096 bytes, or there are more than 1000000 lines")]
    TooLong,
}

impl RunFault {
    ghost use Rattle.w16_script.specs.Status.{status_of};

    /// The exit status that stands for the fault.
    pub fn status(self) -> u8
        ensures { result ≡ status_of self }
    {
        match self {
            RunFault::Read | RunFault::Write => 1,
            RunFault::Memory => 3,
            RunFault::TooLong => 4,
        }
    }
}

/// How a whole script ended: all its lines, and those that had a reply.
#[derive(Debug, Clone, Copy, PartialEq, Eq)]
pub struct Ended {
    pub lines: u32,
    pub replies: u32,
}
