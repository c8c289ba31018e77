//! Questions on modules that are loaded.
ghost use Rattle.std.specs.Prelude.{◌≡◌, ◌+◌, ◌<◌, ◌≤◌, ℕ, false, IfNone, IfSome, IsFalse, IsSome, IsTrue, None, Some, option_and_then, option_map, slice_get};
ghost use Rattle.std.specs.FinMap as finmap;
ghost use Rattle.w16_ne.specs.Reading.{word_of};
ghost use Rattle.w16_ne.specs.Modules.{Tables};
ghost use Rattle.w16_format.specs.Tables.{tables_in};
ghost use Rattle.w16_store.specs.Names.{is_named};
ghost use Rattle.w16_loading.specs.Modules.{Module, module_at, name_of};
ghost use Rattle.w16_kernel.specs.Growing.{IsLoadedFrom};
ghost use Rattle.w16_kernel.specs.Asked.{export_in, segment_pointer, segment_selector, start_of, IsFirstModule, IsStart};

use crate::kernel::Kernel;
use std::alloc::Allocator;
use w16_loader::{Loaded, Registry};
use w16_loading::{FIRST_MODULE, MOST_MODULES};
use w16_model::names::{dword_of, selector_of};
use w16_store::{Store, is_named};

/// Where a program begins, as the header of its file says. Its fields lie as C has them.
#[repr(C)]
#[derive(Debug, Clone, Copy, PartialEq, Eq)]
pub struct Start {
    /// cs:ip, a far pointer; 0 where the header names no segment.
    pub entry: u32,
    /// ss:sp, likewise.
    pub stack: u32,
    /// The selector of the automatic data segment; 0 where there is none.
    pub automatic_data: u16,
    /// How many bytes of the automatic data segment are to be a local heap at first.
    pub heap: u16,
    /// How many are to be the stack.
    pub stack_size: u16,
    /// The header's flags.
    pub flags: u16,
}

/// A name of an entry of a module.
#[derive(Debug, Clone, Copy)]
pub struct Export<'a> {
    pub name: &'a [u8],
    pub ordinal: u16,
    /// The far pointer that the ordinal leads to; 0 where it has no entry.
    pub pointer: u32,
}

/// A word of a header.
fn word(header: &[u8; 64], at: usize) -> u16
    requires { at < 63 }
    ensures { result ≡ word_of header.now at }
{
    u16::from(header[at]) + 256 * u16::from(header[at + 1])
}

/// The selector of a segment, by its number from 1; none where no segment has it.
fn selector_in<A: Allocator>(loaded: &Loaded<A>, number: u16) -> Option<u16>
    ensures { result ≡ segment_selector loaded.now.slots number }
{
    let place = number.checked_sub(1)?;
    let slot = loaded.slots().get(usize::from(place))?;
    Some(selector_of(*slot))
}

/// A far pointer into a segment; 0 where no segment has the number.
fn pointer_in<A: Allocator>(loaded: &Loaded<A>, number: u16, offset: u16) -> u32
    ensures { result ≡ segment_pointer loaded.now.slots number offset }
{
    match selector_in(loaded, number) {
        None => 0,
        Some(selector) => dword_of(selector, offset),
    }
}

/// Where a module begins.
fn start_in<A: Allocator>(loaded: &Loaded<A>) -> Start
    ensures { (t : Tables) × (loaded.now.tables ≡ tables_in t) × (result ≡ start_of t.header loaded.now.slots) }
{
    let header = loaded.module().header();
    Start {
        entry: pointer_in(loaded, word(header, 0x16), word(header, 0x14)),
        stack: pointer_in(loaded, word(header, 0x1a), word(header, 0x18)),
        automatic_data: selector_in(loaded, word(header, 0x0e)).unwrap_or(0),
        heap: word(header, 0x10),
        stack_size: word(header, 0x12),
        flags: word(header, 0x0c),
    }
}

/// The first handle from a number on that names something.
fn first_from<A: Allocator>(registry: &Registry<A>, from: u16) -> Option<u16>
    ensures found { IfSome result (λ first. (from ≤ first) × IsSome (finmap.get registry.now first)) }
    ensures lowest { IfSome result (λ first. (handle : ℕ) → from ≤ handle → handle < first → finmap.get registry.now handle ≡ None) }
    ensures none { IfNone result ((handle : ℕ) → from ≤ handle → handle < FIRST_MODULE + MOST_MODULES → finmap.get registry.now handle ≡ None) }
{
    for handle in from..FIRST_MODULE + MOST_MODULES {
        if registry.get(handle).is_some() {
            return Some(handle);
        }
    }
    None
}

/// Whether a module is loaded from the file of a name.
pub fn is_loaded_from<A: Allocator>(registry: &Registry<A>, name: &[u8]) -> bool
    ensures yes { IsTrue result → IsLoadedFrom registry.now name.now }
    ensures no { IsFalse result → (handle : ℕ) (m : Module) → handle < FIRST_MODULE + MOST_MODULES → module_at registry.now handle ≡ Some m → is_named name.now m.file ≡ false }
{
    for handle in 0..FIRST_MODULE + MOST_MODULES {
        if let Some(loaded) = registry.module(handle)
            && is_named(name, loaded.file())
        {
            return true;
        }
    }
    false
}

impl<S: Store + Drop, A: Allocator + Copy> Kernel<S, A> {
    /// Where the program of a module begins; none of a bad handle and of a built-in.
    pub fn module_start(&self, handle: u16) -> Option<Start>
        ensures { IsStart (module_at self.now.loading.modules handle) result }
    {
        let loaded = self.parts.loading.registry.module(handle)?;
        Some(start_in(loaded))
    }

    /// The selector of a segment of a module, by its number from 1; none where there is no such segment or module.
    pub fn module_segment(&self, handle: u16, number: u16) -> Option<u16>
        ensures { result ≡ option_and_then (λ m. segment_selector m.slots number) (module_at self.now.loading.modules handle) }
    {
        let loaded = self.parts.loading.registry.module(handle)?;
        selector_in(loaded, number)
    }

    /// The first handle from a number on that names a module or a built-in; none where there is no further one.
    pub fn module_from(&self, from: u16) -> Option<u16>
        ensures { IsFirstModule self.now.loading.modules from result }
    {
        first_from(&self.parts.loading.registry, from)
    }

    /// The name of a module or a built-in; none of a bad handle.
    pub fn module_name(&self, handle: u16) -> Option<&[u8]>
        ensures { option_map (λ name. name.now) result ≡ option_map name_of (finmap.get self.now.loading.modules handle) }
    {
        let entry = self.parts.loading.registry.get(handle)?;
        Some(entry.name())
    }

    /// The name of the file that a module was loaded from; none of a bad handle and of a built-in.
    pub fn module_file(&self, handle: u16) -> Option<&[u8]>
        ensures { option_map (λ name. name.now) result ≡ option_map (λ m. m.file) (module_at self.now.loading.modules handle) }
    {
        let loaded = self.parts.loading.registry.module(handle)?;
        Some(loaded.file())
    }

    /// The handle of the module or built-in that a reference of a module means, by its place from 0 in the file's table; none after the last, of a bad
    /// handle and of a built-in.
    pub fn module_import(&self, handle: u16, place: usize) -> Option<u16>
        ensures { result ≡ option_and_then (λ m. slice_get m.imports place) (module_at self.now.loading.modules handle) }
    {
        let loaded = self.parts.loading.registry.module(handle)?;
        loaded.imports().get(place).copied()
    }

    /// A name of an entry of a module, by its index from 0, in the order of its file's tables; none after the last, of a bad handle and of a built-in.
    pub fn export_at(&self, handle: u16, index: usize) -> Option<Export<'_>>
        ensures { option_map (λ e. (e.name.now, (e.ordinal, e.pointer))) result ≡ export_in self.now.loading.modules handle index }
    {
        let loaded = self.parts.loading.registry.module(handle)?;
        let tables = loaded.module();
        if index >= tables.name_count() {
            return None;
        }
        let (name, ordinal) = tables.entry_name(index);
        let far = loaded.address_by_ordinal(ordinal);
        Some(Export {
            name,
            ordinal,
            pointer: dword_of(far.selector, far.offset),
        })
    }
}
