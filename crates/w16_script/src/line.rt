//! Lines of a script.
ghost use Rattle.std.specs.Prelude.{◌≡◌, ◌≤◌, ◌<◌, [], ◌∷◌, ℕ, List, length, IfSome, IfNone, Option, Some};
ghost use Rattle.w16_script.specs.Words.{words_of};
ghost use Rattle.w16_loading.specs.Families.{AnyCommand};
ghost use Rattle.w16_kernel.specs.Runs.{command_of, IsCall};
ghost use Rattle.w16_machine.specs.declared.name.Parameter.TheVariants as p;
ghost use Rattle.w16_machine.specs.Rows.{Argument};
ghost use Rattle.w16_script.specs.Grammar.{Reads, GoesTo, Makes, text_of, parameters_of, command_with};
ghost use Rattle.w16_script.specs.Lines.{said_of, IsFarAccess, IsRunnable};

use crate::arguments::{Count, nothing, one, three, two, with_bytes};
use crate::bytes::MOST_BYTES;
use crate::name::find;
use crate::registers::{Registers, register};
use crate::words::split_word;
use w16_kernel::{
    Call, GlobalAllocFlags, GlobalReAllocFlags, Label, LocalAllocFlags, LocalReAllocFlags,
    MOST_FILLED, MOST_READ,
};
use w16_machine::name::Name;

/// The most bytes that a `Read` may ask for.
const READ_AT_MOST: u32 = MOST_READ as u32;

/// What a line says: nothing, nothing that is known, or a command, whose reply goes to the target, if there
/// is one.
#[derive(Debug, Clone, Copy)]
pub enum Line<'a> {
    Silent,
    Bad,
    Command { target: Option<u8>, call: Call<'a> },
}

/// The register before a command, `rN =`, and what stands after it.
fn split_target<'a>(word: &[u8], text: &'a [u8]) -> Option<(u8, &'a [u8])>
    ensures found { IfSome result (λ split. GoesTo (word.now ∷ words_of text.now) (Some split.0) (words_of split.1.now)) }
    ensures small { IfSome result (λ split. split.0 < 100) }
    ensures none { IfNone result ((r : ℕ) (rest : List (List ℕ)) → GoesTo (word.now ∷ words_of text.now) (Some r) rest → ⊥) }
{
    let register = register(word)?;
    match split_word(text) {
        Some((b"=", behind)) => Some((register, behind)),
        _ => None,
    }
}

/// The call of this name with one word, if that is what it takes.
fn with_word<'a>(name: Name, word: u16) -> Option<Call<'a>>
    ensures found { IfSome result (λ call. (parameters_of name ≡ p.Word ∷ []) × (command_of call ≡ command_with name (Argument.Word word ∷ []))) }
    ensures call { IfSome result (λ call. IsCall call) }
    ensures none { IfNone result (parameters_of name ≡ p.Word ∷ [] → ⊥) }
{
    match name {
        Name::GlobalFree => Some(Call::GlobalFree { handle: word }),
        Name::GlobalLock => Some(Call::GlobalLock { handle: word }),
        Name::GlobalUnlock => Some(Call::GlobalUnlock { handle: word }),
        Name::GlobalSize => Some(Call::GlobalSize { handle: word }),
        Name::GlobalFlags => Some(Call::GlobalFlags { handle: word }),
        Name::GlobalHandle => Some(Call::GlobalHandle { selector: word }),
        Name::GetSelectorBase => Some(Call::GetSelectorBase { selector: word }),
        Name::GetSelectorLimit => Some(Call::GetSelectorLimit { selector: word }),
        Name::GlobalDiscard => Some(Call::GlobalDiscard { handle: word }),
        Name::GlobalLRUNewest => Some(Call::GlobalLRUNewest { handle: word }),
        Name::GlobalLRUOldest => Some(Call::GlobalLRUOldest { handle: word }),
        Name::FreeLibrary => Some(Call::FreeLibrary { handle: word }),
        Name::FreeModule => Some(Call::FreeModule { handle: word }),
        Name::GetModuleUsage => Some(Call::GetModuleUsage { handle: word }),
        Name::LockResource => Some(Call::LockResource { handle: word }),
        Name::FreeResource => Some(Call::FreeResource { handle: word }),
        Name::LocalDiscard => Some(Call::LocalDiscard { name: word }),
        Name::LocalFree => Some(Call::LocalFree { name: word }),
        Name::LocalLock => Some(Call::LocalLock { name: word }),
        Name::LocalUnlock => Some(Call::LocalUnlock { name: word }),
        Name::LocalSize => Some(Call::LocalSize { name: word }),
        Name::LocalFlags => Some(Call::LocalFlags { name: word }),
        Name::LocalHandle => Some(Call::LocalHandle { pointer: word }),
        Name::LocalCompact => Some(Call::LocalCompact { size: word }),
        Name::DS => Some(Call::DS { selector: word }),
        _ => None,
    }
}

/// The call of this name with two words, if that is what it takes.
fn with_words<'a>(name: Name, first: u16, second: u16) -> Option<Call<'a>>
    ensures found { IfSome result (λ call. (parameters_of name ≡ p.Word ∷ p.Word ∷ []) × (command_of call ≡ command_with name (Argument.Word first ∷ Argument.Word second ∷ []))) }
    ensures call { IfSome result (λ call. IsCall call) }
    ensures none { IfNone result (parameters_of name ≡ p.Word ∷ p.Word ∷ [] → ⊥) }
{
    match name {
        Name::LocalAlloc => Some(Call::LocalAlloc {
            flags: LocalAllocFlags(first),
            size: second,
        }),
        Name::LoadResource => Some(Call::LoadResource {
            handle: first,
            place: second,
        }),
        Name::SizeofResource => Some(Call::SizeofResource {
            handle: first,
            place: second,
        }),
        _ => None,
    }
}

/// The call of this name with a text, if that is what it takes.
fn with_text(name: Name, text: &[u8]) -> Option<Call<'_>>
    ensures found { IfSome result (λ call. (parameters_of name ≡ p.Text ∷ []) × (command_of call ≡ command_with name (Argument.Text text.now ∷ []))) }
    ensures call { IfSome result (λ call. IsCall call) }
    ensures none { IfNone result (parameters_of name ≡ p.Text ∷ [] → ⊥) }
{
    match name {
        Name::Builtin => Some(Call::Builtin { name: text }),
        Name::LoadModule => Some(Call::LoadModule { file: text }),
        Name::LoadLibrary => Some(Call::LoadLibrary { file: text }),
        Name::GetModuleHandle => Some(Call::GetModuleHandle { name: text }),
        _ => None,
    }
}

/// The far access of this name that the text makes, if it is a far access's name.
#[tactic(auto, using(crate::proofs::ArgumentLemmas::making))]
fn far_access<'a>(
    name: Name,
    text: &'a [u8],
    registers: &Registers,
    room: &'a mut [u8; MOST_BYTES],
) -> Option<Call<'a>>
    ensures found { IfSome result (λ call. Makes registers.now name (words_of text.now) (command_of call)) }
    ensures call { IfSome result (λ call. IsCall call) }
    ensures none { IsFarAccess (command_with name []) → IfNone result ((command : AnyCommand) → Makes registers.now name (words_of text.now) command → ⊥) }
{
    match name {
        Name::Read => {
            let (pointer, count) = two::<u32, Count<READ_AT_MOST>>(text, registers)?;
            Some(Call::Read {
                pointer,
                count: count.number,
            })
        }
        Name::Write => {
            let (pointer, bytes) = with_bytes::<u32>(text, registers, room)?;
            Some(Call::Write { pointer, bytes })
        }
        Name::Fill => {
            let (pointer, count, byte) = three::<u32, Count<MOST_FILLED>, u8>(text, registers)?;
            Some(Call::Fill {
                pointer,
                count: count.number,
                byte,
            })
        }
        _ => None,
    }
}

/// The call of this name that the text makes.
#[tactic(auto, using(crate::proofs::ArgumentLemmas::making))]
fn call<'a>(
    name: Name,
    text: &'a [u8],
    registers: &Registers,
    room: &'a mut [u8; MOST_BYTES],
) -> Option<Call<'a>>
    ensures found { IfSome result (λ call. Makes registers.now name (words_of text.now) (command_of call)) }
    ensures call { IfSome result (λ call. IsCall call) }
    ensures none { IfNone result ((command : AnyCommand) → Makes registers.now name (words_of text.now) command → ⊥) }
{
    match name {
        Name::GlobalAlloc => {
            let (flags, size) = two::<u16, u32>(text, registers)?;
            Some(Call::GlobalAlloc {
                flags: GlobalAllocFlags(flags),
                size,
            })
        }
        Name::GlobalCompact => {
            let size = one::<u32>(text, registers)?;
            Some(Call::GlobalCompact { size })
        }
        Name::GlobalReAlloc => {
            let (handle, size, flags) = three::<u16, u32, u16>(text, registers)?;
            Some(Call::GlobalReAlloc {
                handle,
                size,
                flags: GlobalReAllocFlags(flags),
            })
        }
        Name::Moved => nothing(text, registers).map(|()| Call::Moved),
        Name::Walk => nothing(text, registers).map(|()| Call::Walk),
        Name::Read | Name::Write | Name::Fill => far_access(name, text, registers, room),
        Name::LocalInit => {
            let (selector, start, end) = three::<u16, u16, u32>(text, registers)?;
            Some(Call::LocalInit {
                selector,
                start,
                end,
            })
        }
        Name::LocalAlloc | Name::LoadResource | Name::SizeofResource => {
            let (first, second) = two::<u16, u16>(text, registers)?;
            with_words(name, first, second)
        }
        Name::LocalReAlloc => {
            let (name, size, flags) = three::<u16, u16, u16>(text, registers)?;
            Some(Call::LocalReAlloc {
                name,
                size,
                flags: LocalReAllocFlags(flags),
            })
        }
        Name::GetProcAddress => {
            let (handle, label) = two::<u16, Label<'_>>(text, registers)?;
            Some(Call::GetProcAddress { handle, label })
        }
        Name::FindResource => {
            let (handle, name, kind) = three::<u16, Label<'_>, Label<'_>>(text, registers)?;
            Some(Call::FindResource { handle, name, kind })
        }
        Name::Builtin | Name::LoadModule | Name::LoadLibrary | Name::GetModuleHandle => {
            let argument = one::<&[u8]>(text, registers)?;
            with_text(name, argument)
        }
        _ => {
            let word = one::<u16>(text, registers)?;
            with_word(name, word)
        }
    }
}

/// The register before a command, if there is one, the command's name, and what stands after it.
#[tactic(auto, using(crate::proofs::SpellingLemmas::no_head))]
fn head<'a>(word: &[u8], text: &'a [u8]) -> Option<(Option<u8>, Name, &'a [u8])>
    ensures found { IfSome result (λ head. GoesTo (word.now ∷ words_of text.now) head.0 (text_of head.1 ∷ words_of head.2.now)) }
    ensures small { IfSome result (λ head. IfSome head.0 (λ r. r < 100)) }
    ensures none { IfNone result ((target : Option ℕ) (name : Name) (rest : List (List ℕ)) → GoesTo (word.now ∷ words_of text.now) target (text_of name ∷ rest) → ⊥) }
{
    let Some((register, command)) = split_target(word, text) else {
        let name = find(word)?;
        return Some((None, name, text));
    };
    let (word, behind) = split_word(command)?;
    let name = find(word)?;
    Some((Some(register), name, behind))
}

/// Reads a line, from which its LF and a CR directly before it were taken off, with what the registers have.
/// It allocates nothing, and always answers: what is neither silent nor a command is `Bad`.
/// The bytes of a command are put into the room; its text or its label lies in the line.
pub fn read_line<'a>(
    line: &'a [u8],
    registers: &Registers,
    room: &'a mut [u8; MOST_BYTES],
) -> Line<'a>
    ensures reads { Reads registers.now line.now (said_of result) }
    ensures runnable { IsRunnable result }
{
    let Some((word, behind)) = split_word(line) else {
        return Line::Silent;
    };
    if word[0] == b';' {
        return Line::Silent;
    }
    let Some((target, name, text)) = head(word, behind) else {
        return Line::Bad;
    };
    match call(name, text, registers, room) {
        Some(call) => Line::Command { target, call },
        None => Line::Bad,
    }
}
