//! What is said of calls that are refused.
use w16_kernel::Call::{self, *};
use w16_kernel::{Reply, Why};
use w16_model::LARGEST_SIZE;

/// What the number of a refused load says.
fn of_load(number: u16) -> Option<&'static str> {
    match number {
        0 => Some("no room, no selector, no module handle, or 65000 uses"),
        2 => Some("no such file"),
        11 => Some("no module file that can be read here"),
        12..=14 => Some("a module for another system"),
        16 => Some("the application is loaded already"),
        20 => Some("a module that it refers to can't be loaded"),
        _ => None,
    }
}

/// What is said of a call by its reply alone, where what it names is there.
fn of_reply(call: &Call<'_>, reply: &Reply<'_>) -> Option<&'static str> {
    match (*call, *reply) {
        (LoadModule { .. } | LoadLibrary { .. }, Reply::Word(number)) => { of_load(number) }
        (GlobalAlloc { size: 0, .. }, Reply::Word(0)) => Some(
            "a fixed object of size 0, or no selector is free",
        ),
        (GlobalReAlloc { size: 0, .. } | LocalReAlloc { size: 0, .. }, Reply::Word(0)) => {
            Some("a size of 0 needs 0x0002 and a discardable object without locks")
        }
        (GlobalAlloc { size, .. } | GlobalReAlloc { size, .. }, Reply::Word(0))
            if size > LARGEST_SIZE => { Some("more than 16711680 bytes") }
        (GlobalReAlloc { .. }, Reply::Word(0)) => Some("no room to grow, or no selector is free"),
        (GlobalLock { .. }, Reply::Dword(0)) | (LocalLock { .. }, Reply::Word(0)) => {
            Some("255 locks")
        }
        (LocalInit { .. }, Reply::Word(0)) => {
            Some("no such segment or range, or it is code or has a local heap")
        }
        (LocalAlloc { .. }, Reply::Word(0)) => {
            Some("no room, 1024 objects, or a fixed object of size 0")
        }
        (LocalReAlloc { .. }, Reply::Word(0)) => Some("no room to grow"),
        (LocalHandle { .. }, Reply::Word(0)) => Some("no local object begins there"),
        (Builtin { .. }, Reply::Word(0)) => {
            Some("a loaded module has the name, or no module handle is free")
        }
        (GetModuleHandle { .. }, Reply::Word(0)) => Some("no module has the name"),
        (GetProcAddress { .. }, Reply::Dword(0)) => Some("no such entry"),
        (FindResource { .. }, Reply::Word(0)) => Some("no such resource"),
        (LoadResource { .. }, Reply::Word(0)) => {
            Some("no such resource, its length, no room, no selector, or 65000 loads")
        }
        (LockResource { .. }, Reply::Dword(0)) => {
            Some("no loaded resource, no room for its bytes, or 255 locks")
        }
        (SizeofResource { .. }, Reply::Dword(0)) => Some("no such resource, or an empty one"),
        (FreeResource { .. }, Reply::Word(1)) => Some("no loaded resource, or locked"),
        _ => None,
    }
}

/// What is said of a call, by what the kernel found before it and its reply.
pub fn reason(call: &Call<'_>, why: Option<Why>, reply: &Reply<'_>) -> Option<&'static str> {
    match why {
        Some(Why::BadHandle) => Some("bad handle"),
        Some(Why::BadSelector) => Some("no object has the selector"),
        Some(Why::BadModule) => Some("no module has the handle"),
        Some(Why::NoLocalHeap) => Some("DS names no local heap"),
        Some(Why::BadName) => Some("no local object has the name"),
        Some(Why::Owned) => Some("the object is a module's"),
        Some(Why::Locked) => Some("locked"),
        Some(Why::NotDiscardable) => Some("not discardable"),
        Some(Why::NoBytes) => Some("the object has no bytes"),
        Some(Why::Limit(_)) => None,
        None => of_reply(call, reply),
    }
}
