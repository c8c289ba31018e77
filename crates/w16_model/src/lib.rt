//! The meaning of a Windows 3.1 heap: gaps, room, requests, handles and steps as definitions (`specs/`), and a plain slow program
//! that computes them. Their laws are in `w16_laws`; docs/DEFINITIONS.md of the repository reads the definitions aloud.
#![tactic(auto)]

use thiserror::Error;

/// Whether a block keeps its address: it does while its object is fixed or locked.
#[derive(Clone, Copy, Debug, PartialEq, Eq)]
pub enum Hold {
    Pinned,
    Loose,
}

/// An object that has bytes, by where it stands. The size is in bytes.
#[derive(Clone, Copy, Debug, PartialEq, Eq)]
pub struct Block {
    pub id: u32,
    pub at: u32,
    pub size: u32,
    pub hold: Hold,
}

/// An interval of memory, from a place up to the place behind its last byte.
#[derive(Clone, Copy, Debug, PartialEq, Eq)]
pub struct Span {
    pub from: u32,
    pub to: u32,
}

/// What may happen to an object: a fixed one keeps its address and its bytes, a moveable one its bytes (GlobalAlloc).
#[derive(Clone, Copy, Debug, PartialEq, Eq)]
pub enum Kind {
    Fixed,
    Moveable,
    Discardable,
}

/// What is known of an object beside its block. The lock count is at most 255, and 0 for a fixed object.
#[derive(Clone, Copy, Debug, PartialEq, Eq)]
pub struct Entry {
    pub kind: Kind,
    pub locks: u8,
}

/// An object that a module owns.
#[derive(Clone, Copy, Debug, PartialEq, Eq)]
pub struct Owned {
    /// How many bytes it has whenever it has any.
    pub size: u32,
    /// It is code, which can't be written.
    pub code: bool,
}

/// What is known of an object's handle beside the heap's part.
#[derive(Clone, Copy, Debug, PartialEq, Eq)]
pub struct Attributes {
    /// Other tasks share the object (`GMEM_DDESHARE`).
    pub shared: bool,
    /// A module owns the object; else it is the script's.
    pub owned: Option<Owned>,
    /// How many slots in a row the object has: enough of them to reach all of its bytes.
    pub slots: u16,
}

/// How a request may make room (the flags of GlobalAlloc and GlobalReAlloc).
#[derive(Clone, Copy, Debug, PartialEq, Eq)]
pub struct RoomOptions {
    /// Others may be moved or discarded (no `GMEM_NOCOMPACT`).
    pub compact: bool,
    /// Others may be discarded (no `GMEM_NODISCARD`).
    pub discard: bool,
    /// New bytes are zeros (`GMEM_ZEROINIT`).
    pub zero: bool,
    /// A fixed or locked object may be moved for its own growth (`GMEM_MOVEABLE` of a reallocation).
    pub may_move: bool,
}

/// Why a step on one object is refused. A refused step changes nothing.
#[derive(Debug, Clone, Copy, PartialEq, Eq, Drop, Error)]
pub enum Refusal {
    /// The object is locked.
    #[error("the object is locked")]
    Locked,
    /// The object is not discardable.
    #[error("the object isn't discardable")]
    NotDiscardable,
    /// The object has no bytes.
    #[error("the object has no bytes")]
    Absent,
    /// The object is fixed.
    #[error("the object is fixed")]
    Fixed,
    /// The lock count is 255.
    #[error("the object's lock count is 255")]
    LockFull,
}

/// Why a far access is refused. A refused access changes nothing.
#[derive(Debug, Clone, Copy, PartialEq, Eq, Drop, Error)]
pub enum FarFault {
    /// No object has the selector.
    #[error("no object has the selector")]
    BadSelector,
    /// The access would write to code.
    #[error("the object is code, which can't be written")]
    ReadOnly,
    /// The object has no bytes.
    #[error("the object has no bytes")]
    NotPresent,
    /// The access goes past the object's end.
    #[error("the access goes past the object's end")]
    Limit,
}

/// What a walk of a heap tells of the object that has some bytes.
#[derive(Clone, Copy, Debug, PartialEq, Eq)]
pub struct Owner {
    /// By what the walk names it: its id in an arena, its handle in the global heap.
    pub name: u32,
    pub kind: Kind,
    pub locks: u8,
}

/// One part of a heap, as a walk tells it: an object's bytes, or a hole, which has no owner. Address and size are in bytes.
#[derive(Clone, Copy, Debug, PartialEq, Eq)]
pub struct Item {
    pub at: u32,
    pub size: u32,
    pub owner: Option<Owner>,
}

/// The number of the first slot.
pub const FIRST_SLOT: u32 = 32;

/// The most slots that there may be: the selectors of more would not be words.
pub const MOST_SLOTS: u32 = 8160;

/// Addresses and sizes in the global heap are multiples of so many bytes.
pub const GRAIN: u32 = 32;

/// The most bytes that `GlobalAlloc` gives.
pub const LARGEST_SIZE: u32 = 16_711_680;

/// A selector reaches so many bytes of its object; those behind them are reached by the next one.
pub const REACH: u32 = 65_536;

/// `GlobalAlloc`: the object may be moved while it isn't locked.
pub const GMEM_MOVEABLE: u16 = 0x0002;

/// `GlobalAlloc`: no other object is moved or discarded.
pub const GMEM_NOCOMPACT: u16 = 0x0010;

/// `GlobalAlloc`: no other object is discarded.
pub const GMEM_NODISCARD: u16 = 0x0020;

/// `GlobalAlloc`: the new bytes are zeros.
pub const GMEM_ZEROINIT: u16 = 0x0040;

/// `GlobalReAlloc`: the object's kind is changed, and not its size.
pub const GMEM_MODIFY: u16 = 0x0080;

/// `GlobalAlloc`, `GlobalFlags`: the object is discardable.
pub const GMEM_DISCARDABLE: u16 = 0x0100;

/// `GlobalAlloc`, `GlobalFlags`: other tasks share the object.
pub const GMEM_DDESHARE: u16 = 0x2000;

/// `GlobalFlags`: the object has no bytes.
pub const GMEM_DISCARDED: u16 = 0x4000;

mod flags;
mod kinds;
pub mod names;
mod plain;

pub use flags::{bit_if, has_flag};
pub use plain::Snapshot;
