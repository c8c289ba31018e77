//! What the machine is asked, and what it answers.
ghost use Rattle.std.specs.Prelude.{◌≡◌, ◌≤◌, length};

use arrayvec::ArrayVec;
use w16_global::{GlobalAllocFlags, GlobalReAllocFlags};
use w16_loading::FetchFault;
use w16_local::{LocalAllocFlags, LocalReAllocFlags};
use w16_machine::access::MOST_READ;
use w16_model::FarFault;
use w16_model::names::slot_of;

/// Bytes that a `Read` answered, in place.
pub type Chunk = ArrayVec<u8, MOST_READ>;

/// What names an entry or a resource of a module, or a type of resources: a number, or a text.
#[derive(Debug, Clone, Copy)]
pub enum Label<'a> {
    Number(u16),
    Text(&'a [u8]),
}

/// One command. Its bytes are lent.
#[derive(Debug, Clone, Copy)]
pub enum Call<'a> {
    GlobalAlloc {
        flags: GlobalAllocFlags,
        size: u32,
    },
    GlobalFree {
        handle: u16,
    },
    GlobalLock {
        handle: u16,
    },
    GlobalUnlock {
        handle: u16,
    },
    GlobalSize {
        handle: u16,
    },
    GlobalFlags {
        handle: u16,
    },
    GlobalHandle {
        selector: u16,
    },
    GetSelectorBase {
        selector: u16,
    },
    GetSelectorLimit {
        selector: u16,
    },
    GlobalCompact {
        size: u32,
    },
    GlobalReAlloc {
        handle: u16,
        size: u32,
        flags: GlobalReAllocFlags,
    },
    GlobalDiscard {
        handle: u16,
    },
    GlobalLRUNewest {
        handle: u16,
    },
    GlobalLRUOldest {
        handle: u16,
    },
    Moved,
    Walk,
    /// The pointer has a selector in its high word. At most [`crate::MOST_READ`] bytes are read.
    Read {
        pointer: u32,
        count: u32,
    },
    Write {
        pointer: u32,
        bytes: &'a [u8],
    },
    /// At most [`crate::MOST_FILLED`] bytes are filled.
    Fill {
        pointer: u32,
        count: u32,
        byte: u8,
    },
    /// A selector of 0 is DS. It takes memory.
    LocalInit {
        selector: u16,
        start: u16,
        end: u32,
    },
    LocalAlloc {
        flags: LocalAllocFlags,
        size: u16,
    },
    LocalReAlloc {
        name: u16,
        size: u16,
        flags: LocalReAllocFlags,
    },
    LocalDiscard {
        name: u16,
    },
    LocalFree {
        name: u16,
    },
    LocalLock {
        name: u16,
    },
    LocalUnlock {
        name: u16,
    },
    LocalSize {
        name: u16,
    },
    LocalFlags {
        name: u16,
    },
    LocalHandle {
        pointer: u16,
    },
    LocalCompact {
        size: u16,
    },
    /// The segment in whose local heap the other Local calls act, by its selector.
    DS {
        selector: u16,
    },
    /// Adds a built-in module of a name. It takes memory.
    Builtin {
        name: &'a [u8],
    },
    /// Loads a module by the name of its file, but an application that is there. It takes memory.
    LoadModule {
        file: &'a [u8],
    },
    /// Loads a module by the name of its file. It takes memory.
    LoadLibrary {
        file: &'a [u8],
    },
    FreeLibrary {
        handle: u16,
    },
    FreeModule {
        handle: u16,
    },
    GetModuleHandle {
        name: &'a [u8],
    },
    GetModuleUsage {
        handle: u16,
    },
    GetProcAddress {
        handle: u16,
        label: Label<'a>,
    },
    FindResource {
        handle: u16,
        name: Label<'a>,
        kind: Label<'a>,
    },
    LoadResource {
        handle: u16,
        place: u16,
    },
    LockResource {
        handle: u16,
    },
    FreeResource {
        handle: u16,
    },
    SizeofResource {
        handle: u16,
        place: u16,
    },
}

impl Call<'_> {
    ghost use Rattle.std.specs.Prelude.{◌≡◌};
    ghost use Rattle.w16_kernel.specs.Parts.{object_slot};
    ghost use Rattle.w16_machine.specs.Rows.{may_take_bytes};
    ghost use Rattle.w16_kernel.specs.Runs.{command_of};

    /// Whether the call may take bytes of an object of the global heap, and so a local heap with them: false of a far access that fetches and of a
    /// local call for which a heap grows, since these take such local heaps away themselves.
    pub fn may_take_bytes(&self) -> bool
        ensures { result ≡ may_take_bytes (command_of self.now) }
    {
        match self {
            Call::GlobalAlloc { .. }
            | Call::GlobalFree { .. }
            | Call::GlobalCompact { .. }
            | Call::GlobalReAlloc { .. }
            | Call::GlobalDiscard { .. }
            | Call::LoadModule { .. }
            | Call::LoadLibrary { .. }
            | Call::FreeLibrary { .. }
            | Call::FreeModule { .. }
            | Call::LoadResource { .. }
            | Call::LockResource { .. }
            | Call::FreeResource { .. } => true,
            _ => false,
        }
    }

    /// Of the five calls of programs that may take bytes of global objects, the slot of the object that is named, or that `GlobalAlloc` has made
    /// by the handle that it answers: 0, which no object has, where there is none. None of any other call, and of a `GlobalReAlloc` that answers
    /// another handle.
    pub fn object_slot(&self, answer: u16) -> Option<u16>
        ensures { result ≡ object_slot (command_of self.now) answer }
    {
        match *self {
            Call::GlobalAlloc { .. } => Some(slot_of(answer)),
            Call::GlobalFree { handle } => Some(slot_of(handle)),
            Call::GlobalCompact { .. } => Some(0),
            Call::GlobalReAlloc { handle, .. } => {
                let slot = slot_of(handle);
                if answer == 0 || slot_of(answer) == slot {
                    Some(slot)
                } else {
                    None
                }
            }
            Call::GlobalDiscard { handle } => Some(slot_of(handle)),
            _ => None,
        }
    }
}

/// The answer to one command. Its bytes lie in the room that the caller lent.
#[derive(Debug, Clone, Copy)]
pub enum Reply<'r> {
    Word(u16),
    Dword(u32),
    Bytes(&'r [u8]),
    Done,
    Fault(FarFault),
    /// An object of a module didn't get its bytes.
    Failed(FetchFault),
    /// That many parts of the heap, which `Kernel::walk_at` tells one by one, and `Kernel::walk_from` from address to address.
    Walk(u32),
}

impl Reply<'_> {
    ghost use Rattle.std.specs.Prelude.{◌≡◌};
    ghost use Rattle.w16_kernel.specs.Parts.{word_of};
    ghost use Rattle.w16_kernel.specs.Runs.{reply_of};

    /// The word that it is, 0 of any other.
    pub fn word(&self) -> u16
        ensures { result ≡ word_of (reply_of self.now) }
    {
        match *self {
            Reply::Word(word) => word,
            _ => 0,
        }
    }
}

/// A reply that keeps its bytes.
#[derive(Debug, Drop)]
pub enum Answer {
    Word(u16),
    Dword(u32),
    Bytes(Chunk),
    Done,
    Fault(FarFault),
    Failed(FetchFault),
    Walk(u32),
}

impl Answer {
    ghost use Rattle.std.specs.Prelude.{◌≡◌};
    ghost use Rattle.w16_kernel.specs.Runs.{IsReply, reply_of, answer_of};

    /// The reply with its bytes copied.
    pub fn of(reply: Reply<'_>) -> Self
        requires { IsReply reply }
        ensures { answer_of result ≡ reply_of reply.entry }
    {
        match reply {
            Reply::Word(word) => Answer::Word(word),
            Reply::Dword(dword) => Answer::Dword(dword),
            Reply::Bytes(bytes) => Answer::Bytes(chunk_of(bytes)),
            Reply::Done => Answer::Done,
            Reply::Fault(fault) => Answer::Fault(fault),
            Reply::Failed(fault) => Answer::Failed(fault),
            Reply::Walk(count) => Answer::Walk(count),
        }
    }
}

/// Bytes in place, of which there are few enough.
fn chunk_of(bytes: &[u8]) -> Chunk
    requires { length bytes.now ≤ MOST_READ }
    ensures { result.items ≡ bytes.now }
{
    let mut chunk = Chunk::new();
    let _ = chunk.try_extend_from_slice(bytes);
    chunk
}
