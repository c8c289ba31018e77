//! Calls on resources.
ghost use Rattle.w16_loading.specs.Replies as replies;
ghost use Rattle.w16_model.specs.Commands.Command.{FindResource};
ghost use Rattle.w16_machine.specs.Rows.{IsOfKind};
ghost use Rattle.w16_machine.specs.Rows.ReplyKind.{FetchedDword};
ghost use Rattle.w16_kernel.specs.Runs.{command_of, reply_of};
ghost use Rattle.w16_kernel.specs.declared.call.Call.TheVariants as calls;
ghost use Rattle.w16_c.specs.Files.{label_in};
ghost use Rattle.w16_c.specs.Makes.{WordCalls, DwordCalls, WordFetches, DwordFetches, Tells};
ghost use Rattle.w16_loading.specs.Families.AnyCommand.{any};

use crate::asked::{Refusal, asked, dword, fetched_word, word};
use crate::held::Held;
use crate::modules::label;
use crate::status::{DONE, NO_MACHINE, NO_MEMORY, status_of_fetch};
use std::alloc::Global;
use w16_kernel::{Call, Reply};

/// `FindResource`: the place of a resource in its module's table, from 1, by its name and its type, each a text, or where that has no bytes a number; 0 where
/// there is none.
#[unsafe(no_mangle)]
pub extern "C" fn w16_find_resource(
    alloc: Global,
    held: &mut Held,
    handle: u16,
    name: &[u8],
    name_number: u16,
    kind: &[u8],
    kind_number: u16,
    place: &mut u16,
) -> u8
    ensures { WordCalls held.old (any _ (FindResource handle (label_in name.now name_number) (label_in kind.now kind_number))) result place.old place.new held.new }
{
    word(
        alloc,
        held,
        &Call::FindResource {
            handle,
            name: label(name, name_number),
            kind: label(kind, kind_number),
        },
        place,
    )
}

/// `LoadResource`: loads the resource at a place, and answers its object's handle, or 0; one that is there has a load more.
#[unsafe(no_mangle)]
pub extern "C" fn w16_load_resource(
    alloc: Global,
    held: &mut Held,
    handle: u16,
    place: u16,
    object: &mut u16,
) -> u8
    ensures { WordFetches held.old (command_of (calls.LoadResource handle place)) result object.old object.new held.new }
{
    fetched_word(alloc, held, &Call::LoadResource { handle, place }, object)
}

/// The status of a reply that has a double word, or says why a fetch failed. A double word goes where the answer goes.
fn dword_told(reply: Reply<'_>, answer: &mut u32) -> u8
    requires { IsOfKind FetchedDword (reply_of reply) }
    ensures { Tells replies.Reply.Dword result (reply_of reply.entry) answer.old answer.new }
{
    match reply {
        Reply::Dword(dword) => {
            *answer = dword;
            DONE
        }
        Reply::Failed(fault) => status_of_fetch(fault),
        _ => DONE,
    }
}

/// `LockResource`: as `GlobalLock`, once the resource has its bytes again.
#[unsafe(no_mangle)]
pub extern "C" fn w16_lock_resource(
    alloc: Global,
    held: &mut Held,
    object: u16,
    pointer: &mut u32,
) -> u8
    ensures { DwordFetches held.old (command_of (calls.LockResource object)) result pointer.old pointer.new held.new }
{
    match asked(alloc, held, &Call::LockResource { handle: object }) {
        Ok(reply) => dword_told(reply, pointer),
        Err(Refusal::NoMachine) => NO_MACHINE,
        Err(Refusal::NoMemory) => NO_MEMORY,
    }
}

/// `FreeResource`: one load less; the last frees the object, if it isn't locked. It answers 0, or 1 where it is refused.
#[unsafe(no_mangle)]
pub extern "C" fn w16_free_resource(
    alloc: Global,
    held: &mut Held,
    object: u16,
    refused: &mut u16,
) -> u8
    ensures { WordCalls held.old (command_of (calls.FreeResource object)) result refused.old refused.new held.new }
{
    word(alloc, held, &Call::FreeResource { handle: object }, refused)
}

/// `SizeofResource`: how many bytes a resource has in its file, or 0.
#[unsafe(no_mangle)]
pub extern "C" fn w16_sizeof_resource(
    alloc: Global,
    held: &mut Held,
    handle: u16,
    place: u16,
    size: &mut u32,
) -> u8
    ensures { DwordCalls held.old (command_of (calls.SizeofResource handle place)) result size.old size.new held.new }
{
    dword(alloc, held, &Call::SizeofResource { handle, place }, size)
}
