//! Calls on modules that are more than one call of the loader.
ghost use Rattle.std.specs.Prelude.{◌≡◌, IfOk, OnErr};
ghost use Rattle.w16_loading.specs.Answers.{StepOver};
ghost use Rattle.w16_loading.specs.Families as families;
ghost use Rattle.w16_model.specs.Commands.Family.{OfModules};
ghost use Rattle.w16_loading.specs.Families.{pointer_to, proc_address};
ghost use Rattle.w16_loader.specs.Loading.{load_answer};
ghost use Rattle.w16_loading.specs.Free.{Frees};
ghost use Rattle.w16_loading.specs.Modules.{LoadingWorld};
ghost use Rattle.w16_format.specs.Ne.{ne_format};
ghost use Rattle.w16_loader.specs.Registry.{in_world};
ghost use Rattle.w16_kernel.specs.Parts.{IsSameLoading};
ghost use Rattle.w16_kernel.specs.Runs.{label_of, load_command, reply_of, IsReply};
ghost use Rattle.w16_loading.specs.Families.AnyCommand.{any};

use crate::call::{Label, Reply};
use std::alloc::{AllocError, Allocator};
use w16_loader::{LoadAnswer, Registry, free, load};
use w16_loading::FetchFault;
use w16_model::names::dword_of;
use w16_resource::Loading;
use w16_store::Store;

/// The reply to `LoadModule`, or to `LoadLibrary`. An error is that there was no memory, and then the world is the same.
#[inline(never)]
pub fn load_reply<S: Store + Drop, A: Allocator + Copy>(
    loading: &mut Loading<S, A>,
    file: &[u8],
    is_load_module: bool,
) -> Result<Reply<'static>, AllocError>
    ensures step { IfOk result (λ reply. StepOver S.is_honest ne_format loading.old (any OfModules (load_command is_load_module file.now)) (reply_of reply) loading.new) }
    ensures short { IfOk result (λ reply. IsReply reply) }
    ensures refused { OnErr result (IsSameLoading loading.old loading.new) }
{
    let answer = load(
        loading.alloc,
        &mut loading.registry,
        &mut loading.global,
        &mut loading.store,
        &mut loading.scratch,
        file,
        is_load_module,
    )?;
    Ok(reply_to_load(answer))
}

/// The reply that tells what a load answered.
fn reply_to_load(answer: LoadAnswer) -> Reply<'static>
    ensures told { reply_of result ≡ families.reply_of (load_answer answer) }
    ensures short { IsReply result }
{
    match answer {
        LoadAnswer::Says(word) => Reply::Word(word),
        LoadAnswer::StoreFails => Reply::Failed(FetchFault::Store),
    }
}

/// `FreeLibrary` and `FreeModule`: one use less, and then modules go that have no use and no importer, with the objects of their segments and of
/// their resources, locked or not. 1 where the handle names something still, else 0.
pub fn free_module<S: Store + Drop, A: Allocator + Copy>(
    loading: &mut Loading<S, A>,
    handle: u16,
) -> u16
    ensures frees { Frees loading.old handle result (record loading.new { failures = loading.old.failures }) }
    ensures unread { (loading.new.files ≡ loading.old.files) × (loading.new.failures ≡ loading.old.failures) }
{
    let answer = free(&mut loading.registry, &mut loading.global, handle);
    loading.sweep_resources();
    answer
}

/// `GetProcAddress`: where an entry of a module is, as a far pointer; 0 where there is none.
pub fn proc_address<A: Allocator + Copy>(
    registry: &Registry<A>,
    handle: u16,
    label: Label<'_>,
) -> u32
    ensures { (rest : LoadingWorld) → result ≡ pointer_to (proc_address (in_world rest registry.now) handle (label_of label.entry)) }
{
    let far = match label {
        Label::Number(ordinal) => registry.proc_address_by_ordinal(handle, ordinal),
        Label::Text(name) => registry.proc_address_by_name(handle, name),
    };
    dword_of(far.selector, far.offset)
}
