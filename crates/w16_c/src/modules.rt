//! Calls on modules. A file, a module or an entry is named by a text, as many bytes as it has.
ghost use Rattle.std.specs.Prelude.{◌≡◌};
ghost use Rattle.w16_model.specs.Commands.Command.{Builtin, LoadModule, LoadLibrary, GetModuleHandle, GetProcAddress};
ghost use Rattle.w16_kernel.specs.Runs.{command_of, label_of};
ghost use Rattle.w16_kernel.specs.declared.call.Call.TheVariants as calls;
ghost use Rattle.w16_c.specs.Files.{label_in};
ghost use Rattle.w16_c.specs.Makes.{WordCalls, DwordCalls, WordFetches};
ghost use Rattle.w16_loading.specs.Families.AnyCommand.{any};

use crate::asked::{dword, fetched_word, word};
use crate::held::Held;
use std::alloc::Global;
use w16_kernel::{Call, Label};

/// What names an entry, a resource or a type: a text, or where that has no bytes a number.
pub fn label(text: &[u8], number: u16) -> Label<'_>
    ensures { label_of result ≡ label_in text.now number }
{
    if text.is_empty() {
        Label::Number(number)
    } else {
        Label::Text(text)
    }
}

/// `Builtin`: a module of a name without a file, and its handle; 0 where a file's module has the name, or no handle is left. It takes memory.
#[unsafe(no_mangle)]
pub extern "C" fn w16_builtin(alloc: Global, held: &mut Held, name: &[u8], handle: &mut u16) -> u8
    ensures { WordCalls held.old (any _ (Builtin name.now)) result handle.old handle.new held.new }
{
    word(alloc, held, &Call::Builtin { name }, handle)
}

/// `LoadModule`: loads a module by the name of its file, and what it refers to, but not an application that is there. It answers the handle, or why it is
/// refused: a number of at most 32. It takes memory.
#[unsafe(no_mangle)]
pub extern "C" fn w16_load_module(
    alloc: Global,
    held: &mut Held,
    file: &[u8],
    handle: &mut u16,
) -> u8
    ensures { WordFetches held.old (any _ (LoadModule file.now)) result handle.old handle.new held.new }
{
    fetched_word(alloc, held, &Call::LoadModule { file }, handle)
}

/// `LoadLibrary`: the same, and a module that is there has a use more. It takes memory.
#[unsafe(no_mangle)]
pub extern "C" fn w16_load_library(
    alloc: Global,
    held: &mut Held,
    file: &[u8],
    handle: &mut u16,
) -> u8
    ensures { WordFetches held.old (any _ (LoadLibrary file.now)) result handle.old handle.new held.new }
{
    fetched_word(alloc, held, &Call::LoadLibrary { file }, handle)
}

/// `FreeLibrary`: one use less; then modules go that have no use and no importer. It answers 1 where the handle still names a module, else 0.
#[unsafe(no_mangle)]
pub extern "C" fn w16_free_library(
    alloc: Global,
    held: &mut Held,
    handle: u16,
    left: &mut u16,
) -> u8
    ensures { WordCalls held.old (command_of (calls.FreeLibrary handle)) result left.old left.new held.new }
{
    word(alloc, held, &Call::FreeLibrary { handle }, left)
}

/// `FreeModule`: the same.
#[unsafe(no_mangle)]
pub extern "C" fn w16_free_module(alloc: Global, held: &mut Held, handle: u16, left: &mut u16) -> u8
    ensures { WordCalls held.old (command_of (calls.FreeModule handle)) result left.old left.new held.new }
{
    word(alloc, held, &Call::FreeModule { handle }, left)
}

/// `GetModuleHandle`: the handle of the module of a name, or 0.
#[unsafe(no_mangle)]
pub extern "C" fn w16_get_module_handle(
    alloc: Global,
    held: &mut Held,
    name: &[u8],
    handle: &mut u16,
) -> u8
    ensures { WordCalls held.old (any _ (GetModuleHandle name.now)) result handle.old handle.new held.new }
{
    word(alloc, held, &Call::GetModuleHandle { name }, handle)
}

/// `GetModuleUsage`: how many uses and importers a module has, or 0.
#[unsafe(no_mangle)]
pub extern "C" fn w16_get_module_usage(
    alloc: Global,
    held: &mut Held,
    handle: u16,
    uses: &mut u16,
) -> u8
    ensures { WordCalls held.old (command_of (calls.GetModuleUsage handle)) result uses.old uses.new held.new }
{
    word(alloc, held, &Call::GetModuleUsage { handle }, uses)
}

/// `GetProcAddress`: a far pointer to an entry, by its name, or where that has no bytes by its ordinal; 0 where there is none.
#[unsafe(no_mangle)]
pub extern "C" fn w16_get_proc_address(
    alloc: Global,
    held: &mut Held,
    handle: u16,
    name: &[u8],
    ordinal: u16,
    pointer: &mut u32,
) -> u8
    ensures { DwordCalls held.old (any _ (GetProcAddress handle (label_in name.now ordinal))) result pointer.old pointer.new held.new }
{
    dword(
        alloc,
        held,
        &Call::GetProcAddress {
            handle,
            label: label(name, ordinal),
        },
        pointer,
    )
}
