//! What is told of an object beside its place.
ghost use Rattle.std.specs.Prelude.{◌≡◌};
ghost use Rattle.w16_picture.specs.Facts.{kind_word, role_word};

use w16_model::{Kind, Owner, Span};

/// Whose an object is.
#[derive(Clone, Copy, Debug, PartialEq, Eq)]
pub enum Source {
    Script,
    /// A segment of the module of this handle, by its number from 1; and whether it is code.
    Segment {
        handle: u16,
        number: usize,
        code: bool,
    },
    /// A resource of the module of this handle, by its place in the module's table.
    Resource {
        handle: u16,
        place: u16,
    },
}

/// A part of a walk, and what else is told of its object; of a hole nothing that is shown.
#[derive(Clone, Copy, Debug, PartialEq, Eq)]
pub struct Part {
    pub at: u32,
    pub size: u32,
    pub owner: Option<Owner>,
    /// What `GlobalFlags` answers.
    pub flags: u16,
    pub source: Source,
    /// The part of the object that a local heap has.
    pub local: Option<Span>,
}

/// The word for a kind.
#[tactic(auto, unfolding(crate::specs::Facts::kind_word))]
pub fn kind_of(kind: Kind) -> &'static str
    ensures { result.now ≡ kind_word kind }
{
    match kind {
        Kind::Fixed => "fixed",
        Kind::Moveable => "moveable",
        Kind::Discardable => "discardable",
    }
}

/// The word for what an object is drawn as: its kind, or what it is of a module.
#[tactic(auto, unfolding(crate::specs::Facts::role_word))]
pub fn role_of(source: Source, kind: Kind) -> &'static str
    ensures { result.now ≡ role_word source kind }
{
    match source {
        Source::Script => kind_of(kind),
        Source::Segment { code, .. } => { if code { "code" } else { "data" } }
        Source::Resource { .. } => "resource",
    }
}
