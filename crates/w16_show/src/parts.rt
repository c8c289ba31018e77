//! Which parts of a module are printed.
ghost use Rattle.std.specs.Prelude.{◌≡◌, ◌||◌, not, true};

/// Which parts of a module's text are asked for.
#[derive(Debug, Clone, Copy, PartialEq, Eq)]
pub struct Parts {
    /// The fields of the header.
    pub header: bool,
    /// The segments with their relocation records.
    pub segments: bool,
    /// The entries and their names.
    pub entries: bool,
    /// The modules that are referred to.
    pub references: bool,
    /// The resources.
    pub resources: bool,
}

impl Parts {
    /// All parts.
    pub fn all() -> Parts
        ensures { result ≡ record { header = true; segments = true; entries = true; references = true; resources = true } }
    {
        Parts {
            header: true,
            segments: true,
            entries: true,
            references: true,
            resources: true,
        }
    }

    /// Whether no part is asked for.
    pub fn is_empty(&self) -> bool
        ensures { result ≡ not (self.now.header || self.now.segments || self.now.entries || self.now.references || self.now.resources) }
    {
        !(self.header || self.segments || self.entries || self.references || self.resources)
    }
}
