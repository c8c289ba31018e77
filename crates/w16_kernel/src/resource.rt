//! Calls on resources.
ghost use Rattle.std.specs.Prelude.{◌≡◌};
ghost use Rattle.w16_format.specs.Ne.{ne_format};
ghost use Rattle.w16_format.specs.Tables.{label_in};
ghost use Rattle.w16_ne.specs.Resources.{label_of as ne_label};
ghost use Rattle.w16_loader.specs.Registry.{in_world};
ghost use Rattle.w16_loading.specs.Answers.{StepOver};
ghost use Rattle.w16_model.specs.Commands.Command.{LoadResource, LockResource};
ghost use Rattle.w16_loading.specs.Modules.{LoadingWorld};
ghost use Rattle.w16_loading.specs.Resource as meaning;
ghost use Rattle.w16_resource.specs.Parts.{IsLoadingOver, dword_in, word_in};
ghost use Rattle.w16_kernel.specs.Runs.{label_of, reply_of, IsReply};
ghost use Rattle.w16_loading.specs.Families.AnyCommand.{any};

use crate::call::{Label, Reply};
use std::alloc::Allocator;
use w16_loader::Registry;
use w16_loading::FetchFault;
use w16_ne::ResourceName;
use w16_resource::Loading;
use w16_store::Store;

/// A label as the tables of files have it.
fn resource_name(label: Label<'_>) -> ResourceName<'_>
    ensures { label_in (ne_label result) ≡ label_of label.entry }
{
    match label {
        Label::Number(number) => ResourceName::Number(number),
        Label::Text(text) => ResourceName::Text(text),
    }
}

/// `FindResource`: the place of a resource in its module's table, from 1, by its name and its type; 0 where there is none.
pub fn find_resource<A: Allocator + Copy>(
    registry: &Registry<A>,
    handle: u16,
    name: Label<'_>,
    kind: Label<'_>,
) -> u16
    ensures { (rest : LoadingWorld) → result ≡ meaning.find_resource (in_world rest registry.now) handle (label_of name.entry) (label_of kind.entry) }
{
    w16_resource::find_resource(registry, handle, resource_name(name), resource_name(kind))
}

/// The reply that tells a word, or why an object got no bytes.
fn word_reply(answer: Result<u16, FetchFault>) -> Reply<'static>
    ensures told { reply_of result ≡ word_in answer }
    ensures short { IsReply result }
{
    match answer {
        Ok(word) => Reply::Word(word),
        Err(fault) => Reply::Failed(fault),
    }
}

/// The reply that tells a double word, or why an object got no bytes.
fn dword_reply(answer: Result<u32, FetchFault>) -> Reply<'static>
    ensures told { reply_of result ≡ dword_in answer }
    ensures short { IsReply result }
{
    match answer {
        Ok(dword) => Reply::Dword(dword),
        Err(fault) => Reply::Failed(fault),
    }
}

/// The reply to `LoadResource`.
#[inline(never)]
pub fn load_resource<S: Store + Drop, A: Allocator + Copy>(
    loading: &mut Loading<S, A>,
    handle: u16,
    place: u16,
) -> Reply<'static>
    requires { IsLoadingOver S.is_honest loading.old }
    ensures step { StepOver S.is_honest ne_format loading.old (any _ (LoadResource handle place)) (reply_of result) loading.new }
    ensures short { IsReply result }
{
    word_reply(loading.load_resource(handle, place))
}

/// The reply to `LockResource`.
#[inline(never)]
pub fn lock_resource<S: Store + Drop, A: Allocator + Copy>(
    loading: &mut Loading<S, A>,
    handle: u16,
) -> Reply<'static>
    requires { IsLoadingOver S.is_honest loading.old }
    ensures step { StepOver S.is_honest ne_format loading.old (any _ (LockResource handle)) (reply_of result) loading.new }
    ensures short { IsReply result }
{
    dword_reply(loading.lock_resource(handle))
}
