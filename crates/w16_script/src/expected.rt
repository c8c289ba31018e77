//! What is expected where a line is bad.
ghost use Rattle.std.specs.Prelude.{◌≡◌, length};
ghost use Rattle.w16_script.specs.Words.{words_of};
ghost use Rattle.w16_script.specs.Grammar.{parameters_of};
ghost use Rattle.w16_script.specs.Expected.{IsExpected};

use crate::name::find;
use crate::registers::register;
use crate::words::split_word;
use w16_machine::name::Name;

/// What was expected in a line that is answered `error syntax`.
#[derive(Debug, Clone, Copy, PartialEq, Eq)]
pub enum Expected<'a> {
    /// A command's name in place of this word.
    Name(&'a [u8]),
    /// A command.
    Command,
    /// These parameters after a command's name.
    Arguments {
        name: &'a [u8],
        parameters: &'static str,
    },
}

/// A command's parameters.
fn parameters(name: Name) -> &'static str
    ensures { length (words_of result.now) ≡ length (parameters_of name) }
{
    use Name::*;
    match name {
        Moved | Walk => "",
        GlobalFree
        | GlobalLock
        | GlobalUnlock
        | GlobalSize
        | GlobalFlags
        | GlobalDiscard
        | GlobalLRUNewest
        | GlobalLRUOldest
        | FreeLibrary
        | FreeModule
        | GetModuleUsage => "HANDLE",
        GlobalHandle | GetSelectorBase | GetSelectorLimit | DS => "SELECTOR",
        LocalDiscard
        | LocalFree
        | LocalLock
        | LocalUnlock
        | LocalSize
        | LocalFlags
        | Builtin
        | GetModuleHandle => "NAME",
        LockResource | FreeResource => "OBJECT",
        LoadModule | LoadLibrary => "FILE",
        GlobalCompact | LocalCompact => "SIZE",
        LocalHandle => "POINTER",
        GlobalAlloc | LocalAlloc => "FLAGS SIZE",
        Read => "POINTER COUNT",
        Write => "POINTER BYTES",
        GetProcAddress => "HANDLE ENTRY",
        LoadResource | SizeofResource => "HANDLE PLACE",
        GlobalReAlloc => "HANDLE SIZE FLAGS",
        LocalReAlloc => "NAME SIZE FLAGS",
        LocalInit => "SELECTOR START END",
        Fill => "POINTER COUNT BYTE",
        FindResource => "HANDLE NAME TYPE",
    }
}

/// The line without the register that its reply goes to.
fn command_in(line: &[u8]) -> &[u8] {
    let Some((first, rest)) = split_word(line) else {
        return line;
    };
    match split_word(rest) {
        Some((b"=", command)) if register(first).is_some() => command,
        _ => line,
    }
}

/// What was expected in a line that [`crate::read_line`] finds bad.
pub fn why_bad(line: &[u8]) -> Expected<'_>
    ensures { IsExpected result }
{
    let Some((word, _)) = split_word(command_in(line)) else {
        return Expected::Command;
    };
    match find(word) {
        Some(name) => Expected::Arguments {
            name: word,
            parameters: parameters(name),
        },
        None => Expected::Name(word),
    }
}
