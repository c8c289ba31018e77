//! Imported names.
ghost use Rattle.std.specs.Prelude.{ℕ, ◌<◌, ◌≤◌, ◌+◌, ◌^◌, length, take, IfOk, IfErr};
ghost use Rattle.w16_store.specs.Files.{file_of};
ghost use Rattle.w16_store.specs.Later.{IsLater, RoseIf};
ghost use Rattle.w16_ne.specs.declared.fault.NeFault.TheVariants.{Truncated};
ghost use Rattle.w16_ne.specs.Reading.{Gives, is_ne_device};
ghost use Rattle.w16_ne.specs.References.{text_at};
ghost use Rattle.w16_ne.specs.Modules.{imported_place};

use crate::fault::NeFault;
use crate::module_file::Module;
use crate::reading::read_or;
use std::alloc::Allocator;
use w16_store::Store;

/// Reads a length byte and so many bytes of text, and tells how many.
#[tactic(auto, unfolding(crate::specs::References::text_at))]
fn read_text<S: Store>(
    store: &mut S,
    name: &[u8],
    at: u64,
    room: &mut [u8],
) -> Result<usize, NeFault>
    requires place { at < 2 ^ 63 }
    requires room { 255 ≤ length room.old }
    ensures stays { IsLater (S.files store.old) (S.failures store.old) (S.files store.new) (S.failures store.new) }
    ensures device { IfErr result (RoseIf is_ne_device (S.failures store.old) (S.failures store.new)) }
    ensures len { IfOk result (λ n. n ≤ 255) }
    ensures exact { S.is_honest → Gives (λ n. take n room.new) (file_of (S.files store.old) name.now)
        (S.failures store.old) (S.failures store.new) result (text_at Truncated (file_of (S.files store.old) name.now) at) }
{
    let mut len = [0u8; 1];
    read_or(store, name, at, &mut len, NeFault::Truncated)?;
    let len = usize::from(len[0]);
    let text = &mut room[..len];
    read_or(store, name, at + 1, text, NeFault::Truncated)?;
    Ok(len)
}

/// Reads an imported name of a module by its offset, from its file, into room for 255 bytes, the most that a name has. Tells how many bytes it has.
///
/// `Truncated` where the file ends before the name does, and `Store` where the store answered a fault. After either the room holds anything.
pub fn imported_name<A: Allocator, S: Store>(
    store: &mut S,
    name: &[u8],
    module_file: &Module<A>,
    offset: u16,
    room: &mut [u8],
) -> Result<usize, NeFault>
    requires { 255 ≤ length room.old }
    ensures stays { IsLater (S.files store.old) (S.failures store.old) (S.files store.new) (S.failures store.new) }
    ensures device { IfErr result (RoseIf is_ne_device (S.failures store.old) (S.failures store.new)) }
    ensures len { IfOk result (λ n. n ≤ 255) }
    ensures exact { S.is_honest → Gives (λ n. take n room.new) (file_of (S.files store.old) name.now)
        (S.failures store.old) (S.failures store.new) result (text_at Truncated (file_of (S.files store.old) name.now) (imported_place module_file.now + offset)) }
{
    let at = module_file.imported_names() + u64::from(offset);
    read_text(store, name, at, room)
}
