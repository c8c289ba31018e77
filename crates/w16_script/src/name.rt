//! The names of commands.
ghost use Rattle.std.specs.Prelude.{◌≡◌, ◌≤◌, length, IfSome, IfNone};
ghost use Rattle.w16_script.specs.Grammar.{text_of};

use w16_machine::name::Name;

/// A command, where the word is its name.
fn named(word: &[u8], text: &'static [u8], name: Name) -> Option<Name>
    ensures found { IfSome result (λ found. (found ≡ name) × (word.now ≡ text.now)) }
    ensures none { IfNone result (word.now ≡ text.now → ⊥) }
{
    if word == text { Some(name) } else { None }
}

/// A command by its name of 12 bytes: a letter or two tell which it may be.
fn find_twelve(word: &[u8]) -> Option<Name>
    requires { length word.now ≡ 12 }
    ensures found { IfSome result (λ name. word.now ≡ text_of name) }
    ensures none { IfNone result ((name : Name) → word.now ≡ text_of name → ⊥) }
{
    match word[11] {
        b'k' => named(word, b"GlobalUnlock", Name::GlobalUnlock),
        b'c' => named(word, b"LocalReAlloc", Name::LocalReAlloc),
        b'd' => named(word, b"LocalDiscard", Name::LocalDiscard),
        b't' => named(word, b"LocalCompact", Name::LocalCompact),
        b'e' => match word[2] {
            b'o' => named(word, b"GlobalHandle", Name::GlobalHandle),
            b'n' => named(word, b"FindResource", Name::FindResource),
            b'a' => named(word, b"LoadResource", Name::LoadResource),
            b'c' => named(word, b"LockResource", Name::LockResource),
            b'e' => named(word, b"FreeResource", Name::FreeResource),
            _ => None,
        },
        _ => None,
    }
}

/// A command by its name of 11 bytes or more: its length and a letter or two tell which it may be.
fn find_long(word: &[u8]) -> Option<Name>
    ensures found { IfSome result (λ name. word.now ≡ text_of name) }
    ensures none { 11 ≤ length word.now → IfNone result ((name : Name) → word.now ≡ text_of name → ⊥) }
{
    match word.len() {
        11 => match word[10] {
            b'c' => named(word, b"GlobalAlloc", Name::GlobalAlloc),
            b's' => named(word, b"GlobalFlags", Name::GlobalFlags),
            b'k' => named(word, b"LocalUnlock", Name::LocalUnlock),
            b'e' => named(word, b"LocalHandle", Name::LocalHandle),
            b'y' => match word[0] {
                b'L' => named(word, b"LoadLibrary", Name::LoadLibrary),
                _ => named(word, b"FreeLibrary", Name::FreeLibrary),
            },
            _ => None,
        },
        12 => find_twelve(word),
        13 => match word[6] {
            b'C' => named(word, b"GlobalCompact", Name::GlobalCompact),
            b'R' => named(word, b"GlobalReAlloc", Name::GlobalReAlloc),
            b'D' => named(word, b"GlobalDiscard", Name::GlobalDiscard),
            _ => None,
        },
        14 => match word[3] {
            b'M' => named(word, b"GetModuleUsage", Name::GetModuleUsage),
            b'P' => named(word, b"GetProcAddress", Name::GetProcAddress),
            b'e' => named(word, b"SizeofResource", Name::SizeofResource),
            _ => None,
        },
        15 => match word[9] {
            b'H' => named(word, b"GetModuleHandle", Name::GetModuleHandle),
            b'o' => named(word, b"GetSelectorBase", Name::GetSelectorBase),
            b'N' => named(word, b"GlobalLRUNewest", Name::GlobalLRUNewest),
            b'O' => named(word, b"GlobalLRUOldest", Name::GlobalLRUOldest),
            _ => None,
        },
        16 => named(word, b"GetSelectorLimit", Name::GetSelectorLimit),
        _ => None,
    }
}

/// The command of this name, whose case counts: its length and a letter or two tell which it may be.
pub fn find(word: &[u8]) -> Option<Name>
    ensures found { IfSome result (λ name. word.now ≡ text_of name) }
    ensures none { IfNone result ((name : Name) → word.now ≡ text_of name → ⊥) }
{
    match word.len() {
        2 => named(word, b"DS", Name::DS),
        4 => match word[0] {
            b'W' => named(word, b"Walk", Name::Walk),
            b'R' => named(word, b"Read", Name::Read),
            b'F' => named(word, b"Fill", Name::Fill),
            _ => None,
        },
        5 => match word[0] {
            b'M' => named(word, b"Moved", Name::Moved),
            b'W' => named(word, b"Write", Name::Write),
            _ => None,
        },
        7 => named(word, b"Builtin", Name::Builtin),
        9 => match word[5] {
            b'I' => named(word, b"LocalInit", Name::LocalInit),
            b'F' => named(word, b"LocalFree", Name::LocalFree),
            b'L' => named(word, b"LocalLock", Name::LocalLock),
            b'S' => named(word, b"LocalSize", Name::LocalSize),
            _ => None,
        },
        10 => match word[7] {
            b'r' => named(word, b"GlobalFree", Name::GlobalFree),
            b'o' => named(word, b"GlobalLock", Name::GlobalLock),
            b'i' => named(word, b"GlobalSize", Name::GlobalSize),
            b'l' => named(word, b"LocalAlloc", Name::LocalAlloc),
            b'a' => named(word, b"LocalFlags", Name::LocalFlags),
            b'u' => match word[0] {
                b'L' => named(word, b"LoadModule", Name::LoadModule),
                _ => named(word, b"FreeModule", Name::FreeModule),
            },
            _ => None,
        },
        11..=16 => find_long(word),
        _ => None,
    }
}
