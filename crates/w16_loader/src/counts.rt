//! How many modules import each other module.
ghost use Rattle.std.specs.Prelude.{◌≡◌, ◌+◌, ◌<◌, ◌≤◌, ◌==◌, ◌&&◌, ◌||◌, ℕ, not, false, length, slice_index, slice_index_or};
ghost use Rattle.w16_model.specs.Discards.{is_member};
ghost use Rattle.w16_loading.specs.Modules.{imports};
ghost use Rattle.w16_loader.specs.Entries.{named_of};
ghost use Rattle.w16_loader.specs.Registry.{counted_of};

use crate::entry::Entry;
use crate::registry::PLACES;
use std::alloc::Allocator;

/// Marks the handles that a module imports, but its own.
fn mark(marks: &mut [bool], imports: &[u16], importer: usize)
    ensures { (handle : ℕ) → handle < length marks.old → slice_index_or marks.new handle false ≡ (slice_index_or marks.old handle false || (not (importer == handle) && is_member handle imports.now)) }
{
    for import in imports {
        let handle = usize::from(*import);
        if handle != importer && handle < marks.len() {
            marks[handle] = true;
        }
    }
}

/// Which handles a module imports, but its own.
fn marked(imports: &[u16], importer: usize) -> [bool; PLACES]
    ensures { (handle : ℕ) → handle < 233 → slice_index_or result handle false ≡ (not (importer == handle) && is_member handle imports.now) }
{
    let mut marks = [false; PLACES];
    mark(&mut marks, imports, importer);
    marks
}

/// The handles that an entry imports: none where it is a built-in.
pub fn imports_of<A: Allocator>(entry: &Entry<A>) -> &[u16]
    ensures { (handle : ℕ) → is_member handle result.now ≡ imports (named_of entry.now) handle }
{
    match entry {
        Entry::Loaded(loaded) => loaded.imports(),
        Entry::BuiltIn(_) => &[],
    }
}

/// Counts a module that no longer imports what it did, and imports other modules from now on, each once, and its own handle never.
pub fn recount<A: Allocator>(counts: &mut Vec<u16, A>, own: usize, before: &[u16], after: &[u16])
    requires many { length counts.old.items ≡ 233 }
    requires counted { (handle : ℕ) → handle < 233 → counted_of own before.now handle ≤ slice_index counts.old.items handle }
    requires few { (handle : ℕ) → handle < 233 → slice_index counts.old.items handle ≤ 233 }
    ensures many { length counts.new.items ≡ 233 }
    ensures each { (handle : ℕ) → handle < 233 → slice_index counts.new.items handle + counted_of own before.now handle ≡ slice_index counts.old.items handle + counted_of own after.now handle }
{
    let before = marked(before, own);
    let after = marked(after, own);
    for handle in 0..PLACES {
        let others = counts[handle] - u16::from(before[handle]);
        counts[handle] = others + u16::from(after[handle]);
    }
}
