//! The figures of local heaps: the flags of the Local calls as the manual has them, and the bounds of the profile.

/// Places and sizes in a local heap are multiples of so many bytes.
pub const LOCAL_GRAIN: u32 = 4;

/// A local heap has at most so many objects, with bytes or without.
pub const LOCAL_ENTRIES: u32 = 1024;

/// A local heap ends at this place of its segment at the latest: near pointers are words.
pub const LAST_LOCAL_END: u32 = 65_536;

/// `LocalAlloc`: the object may be moved while it isn't locked. `LocalReAlloc`: it may be moved for its own growth.
pub const LMEM_MOVEABLE: u16 = 0x0002;

/// `LocalAlloc`, `LocalReAlloc`: no other object is moved or discarded.
pub const LMEM_NOCOMPACT: u16 = 0x0010;

/// `LocalAlloc`, `LocalReAlloc`: no other object is discarded.
pub const LMEM_NODISCARD: u16 = 0x0020;

/// `LocalAlloc`, `LocalReAlloc`: the new bytes are zeros.
pub const LMEM_ZEROINIT: u16 = 0x0040;

/// `LocalReAlloc`: the object's kind is changed, and not its size.
pub const LMEM_MODIFY: u16 = 0x0080;

/// `LocalAlloc`, `LocalReAlloc`: any of these bits makes the object discardable. `LocalFlags` has all of them for one that is.
pub const LMEM_DISCARDABLE: u16 = 0x0f00;

/// `LocalFlags`: the object has no bytes.
pub const LMEM_DISCARDED: u16 = 0x4000;
