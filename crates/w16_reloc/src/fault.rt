//! Why a segment isn't relocated.
use thiserror::Error;
use w16_store::StoreFault;

/// The first fault of a segment's records, or why they could not be read.
#[derive(Debug, Clone, Copy, PartialEq, Eq, Drop, Error)]
pub enum RelocFault {
    /// A record isn't well formed.
    #[error("bad record")]
    BadRecord,
    /// A site covers a byte past the segment's data.
    #[error("site outside the data")]
    SiteOutside,
    /// Two sites share a byte, as those of a chain that returns do.
    #[error("sites overlap")]
    Overlap,
    /// The store doesn't give the file.
    #[error("{0}")]
    Store(StoreFault),
}
