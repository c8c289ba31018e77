//! The names of commands, and the kinds of their arguments.

/// A command, without its arguments.
#[derive(Clone, Copy)]
pub enum Name {
    GlobalAlloc,
    GlobalFree,
    GlobalLock,
    GlobalUnlock,
    GlobalSize,
    GlobalFlags,
    GlobalHandle,
    GetSelectorBase,
    GetSelectorLimit,
    GlobalCompact,
    GlobalReAlloc,
    GlobalDiscard,
    GlobalLRUNewest,
    GlobalLRUOldest,
    Moved,
    Walk,
    Read,
    Write,
    Fill,
    Builtin,
    LoadModule,
    LoadLibrary,
    FreeLibrary,
    FreeModule,
    GetModuleHandle,
    GetModuleUsage,
    GetProcAddress,
    FindResource,
    LoadResource,
    SizeofResource,
    LockResource,
    FreeResource,
    LocalInit,
    LocalAlloc,
    LocalReAlloc,
    LocalDiscard,
    LocalFree,
    LocalLock,
    LocalUnlock,
    LocalSize,
    LocalFlags,
    LocalHandle,
    LocalCompact,
    DS,
}

/// What a command asks of a word: the kind of an argument.
#[derive(Clone, Copy)]
pub enum Parameter {
    Word,
    Dword,
    /// A number up to this one.
    Count(u32),
    Byte,
    Bytes,
    Text,
    /// A text, or after a `#` a number.
    Label,
}
