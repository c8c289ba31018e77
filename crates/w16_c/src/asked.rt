//! One call on a holder, and its answer by the kind of its reply.
ghost use Rattle.std.specs.Prelude.{◌≡◌, IfOk, IfErr};
ghost use Rattle.w16_loading.specs.Replies as replies;
ghost use Rattle.w16_kernel.specs.Runs.{command_of, reply_of, HasRoom, IsCall};
ghost use Rattle.w16_c.specs.Makes.{Makes, Refuses, WordCalls, DwordCalls, WordFetches, FarCalls, IsStatus, Tells};
ghost use Rattle.w16_machine.specs.Rows.{IsOfKind, reply_kind};
ghost use Rattle.w16_machine.specs.Rows.ReplyKind.{AWord, ADword, FetchedWord, OnlyDone};

use crate::held::Held;
use crate::life::{put_back, taken};
use crate::status::{DONE, NO_MACHINE, NO_MEMORY, status_of, status_of_fetch};
use std::alloc::Global;
use w16_kernel::{Call, Reply};

/// Why no call was made.
#[derive(Clone, Copy)]
pub enum Refusal {
    /// The holder has no machine.
    NoMachine,
    /// The host has no memory for what the call takes.
    NoMemory,
}

/// One step of the machine that is held, by a call that reads no bytes.
pub fn asked(alloc: Global, held: &mut Held, call: &Call<'_>) -> Result<Reply<'static>, Refusal>
    requires call { IsCall call.now }
    requires room { HasRoom call.now 0 }
    ensures made { IfOk result (λ reply. Makes held.old (command_of call.now) (reply_of reply) held.new) }
    ensures refused { IfErr result (λ refusal. Refuses held.old (command_of call.now) refusal held.new) }
{
    let Some(mut kernel) = taken(held, alloc) else {
        return Err(Refusal::NoMachine);
    };
    let reply = kernel.ask(call);
    put_back(held, alloc, kernel);
    reply.map_err(|_| Refusal::NoMemory)
}

/// The word of a reply that has one.
fn word_in(reply: Reply<'_>) -> u16
    requires { IsOfKind AWord (reply_of reply) }
    ensures { reply_of reply.entry ≡ replies.Reply.Word result }
{
    match reply {
        Reply::Word(word) => word,
        _ => 0,
    }
}

/// The double word of a reply that has one.
fn dword_in(reply: Reply<'_>) -> u32
    requires { IsOfKind ADword (reply_of reply) }
    ensures { reply_of reply.entry ≡ replies.Reply.Dword result }
{
    match reply {
        Reply::Dword(dword) => dword,
        _ => 0,
    }
}

/// A call that answers a word.
pub fn word(alloc: Global, held: &mut Held, call: &Call<'_>, answer: &mut u16) -> u8
    requires call { IsCall call.now }
    requires kind { reply_kind (command_of call.now) ≡ AWord }
    ensures { WordCalls held.old (command_of call.now) result answer.old answer.new held.new }
{
    match asked(alloc, held, call) {
        Ok(reply) => {
            *answer = word_in(reply);
            DONE
        }
        Err(Refusal::NoMachine) => NO_MACHINE,
        Err(Refusal::NoMemory) => NO_MEMORY,
    }
}

/// A call that answers a double word.
pub fn dword(alloc: Global, held: &mut Held, call: &Call<'_>, answer: &mut u32) -> u8
    requires call { IsCall call.now }
    requires kind { reply_kind (command_of call.now) ≡ ADword }
    ensures { DwordCalls held.old (command_of call.now) result answer.old answer.new held.new }
{
    match asked(alloc, held, call) {
        Ok(reply) => {
            *answer = dword_in(reply);
            DONE
        }
        Err(Refusal::NoMachine) => NO_MACHINE,
        Err(Refusal::NoMemory) => NO_MEMORY,
    }
}

/// The status of a reply that has a word, or says why a fetch failed. A word goes where the answer goes.
fn word_told(reply: Reply<'_>, answer: &mut u16) -> u8
    requires { IsOfKind FetchedWord (reply_of reply) }
    ensures { Tells replies.Reply.Word result (reply_of reply.entry) answer.old answer.new }
{
    match reply {
        Reply::Word(word) => {
            *answer = word;
            DONE
        }
        Reply::Failed(fault) => status_of_fetch(fault),
        _ => DONE,
    }
}

/// A call that reads files, and answers a word where the reads don't fail.
pub fn fetched_word(alloc: Global, held: &mut Held, call: &Call<'_>, answer: &mut u16) -> u8
    requires call { IsCall call.now }
    requires kind { reply_kind (command_of call.now) ≡ FetchedWord }
    ensures { WordFetches held.old (command_of call.now) result answer.old answer.new held.new }
{
    match asked(alloc, held, call) {
        Ok(reply) => word_told(reply, answer),
        Err(Refusal::NoMachine) => NO_MACHINE,
        Err(Refusal::NoMemory) => NO_MEMORY,
    }
}

/// The status of a reply that says that something is done, or has a fault.
pub fn written(reply: Reply<'_>) -> u8
    requires { IsOfKind OnlyDone (reply_of reply) }
    ensures { IsStatus result (reply_of reply.entry) }
{
    match reply {
        Reply::Fault(fault) => status_of(fault),
        Reply::Failed(fault) => status_of_fetch(fault),
        _ => DONE,
    }
}

/// A call that is done, or answers a fault.
pub fn done(alloc: Global, held: &mut Held, call: &Call<'_>) -> u8
    requires call { IsCall call.now }
    requires kind { reply_kind (command_of call.now) ≡ OnlyDone }
    ensures { FarCalls held.old (command_of call.now) result replies.Reply.Done held.new }
{
    match asked(alloc, held, call) {
        Ok(reply) => written(reply),
        Err(Refusal::NoMachine) => NO_MACHINE,
        Err(Refusal::NoMemory) => NO_MEMORY,
    }
}
