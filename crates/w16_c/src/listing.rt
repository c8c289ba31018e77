//! Questions on modules that are loaded, which change nothing. `NO_MODULE` is that no module has the handle, or only a built-in has it, `END` that nothing
//! is left of what is asked for, and `BAD_SIZE` that the buffer is shorter than the name.
ghost use Rattle.std.specs.Prelude.{◌≡◌, ◌<◌, ℕ, Option, IfSome, length, option_map};
ghost use Rattle.std.specs.FinMap as finmap;
ghost use Rattle.w16_loading.specs.Modules.{module_at, name_of};
ghost use Rattle.w16_kernel.specs.Asked.{export_in};
ghost use Rattle.w16_kernel.specs.Marks.{ComesNext, GoesNext};
ghost use Rattle.w16_c.specs.Files.{TellsName};
ghost use Rattle.w16_c.specs.Listing.{end_of, modules_of, Asks, Marks, TellsExport, TellsImport, TellsModule, TellsSegment, TellsStart, Told};

use crate::files::told_name;
use crate::held::Held;
use crate::life::{put_back, taken};
use crate::status::{DONE, END, NO_MACHINE, NO_MODULE};
use std::alloc::Global;
use w16_kernel::{Export, GrowingStore, Kernel, Start};

/// Puts what was found where it goes, if there is something; else it answers what says that there is nothing.
fn told<X: Copy>(nothing: u8, found: Option<X>, into: &mut X) -> u8
    ensures { Told nothing found result into.old into.new }
{
    match found {
        Some(found) => {
            *into = found;
            DONE
        }
        None => nothing,
    }
}

/// The status where there is no such module, or it hasn't got what it is asked for.
fn end_at(kernel: &Kernel<GrowingStore>, handle: u16) -> u8
    ensures { result ≡ end_of (module_at kernel.now.loading.modules handle) }
{
    match kernel.module_file(handle) {
        Some(_) => END,
        None => NO_MODULE,
    }
}

/// Where a module's program begins, as the header of its file says.
#[unsafe(no_mangle)]
pub extern "C" fn w16_module_start(
    alloc: Global,
    held: &mut Held,
    handle: u16,
    start: &mut Start,
) -> u8
    ensures { Asks held.old result held.new (TellsStart held.old handle result start.old start.new) (start.new ≡ start.old) }
{
    let Some(kernel) = taken(held, alloc) else {
        return NO_MACHINE;
    };
    let found = kernel.module_start(handle);
    put_back(held, alloc, kernel);
    told(NO_MODULE, found, start)
}

/// The selector of a module's segment, by its number from 1.
#[unsafe(no_mangle)]
pub extern "C" fn w16_module_segment(
    alloc: Global,
    held: &mut Held,
    handle: u16,
    number: u16,
    selector: &mut u16,
) -> u8
    ensures { Asks held.old result held.new (TellsSegment (module_at (modules_of held.old) handle) number result selector.old selector.new) (selector.new ≡ selector.old) }
{
    let Some(kernel) = taken(held, alloc) else {
        return NO_MACHINE;
    };
    let found = kernel.module_segment(handle, number);
    let end = end_at(&kernel, handle);
    put_back(held, alloc, kernel);
    told(end, found, selector)
}

/// The handle of what a module refers to, by its place from 0 in its file's table of references.
#[unsafe(no_mangle)]
pub extern "C" fn w16_module_import(
    alloc: Global,
    held: &mut Held,
    handle: u16,
    place: usize,
    import: &mut u16,
) -> u8
    ensures { Asks held.old result held.new (TellsImport (module_at (modules_of held.old) handle) place result import.old import.new) (import.new ≡ import.old) }
{
    let Some(kernel) = taken(held, alloc) else {
        return NO_MACHINE;
    };
    let found = kernel.module_import(handle, place);
    let end = end_at(&kernel, handle);
    put_back(held, alloc, kernel);
    told(end, found, import)
}

/// The first handle from a number on that names a module or a built-in.
#[unsafe(no_mangle)]
pub extern "C" fn w16_module_from(alloc: Global, held: &mut Held, from: u16, handle: &mut u16) -> u8
    ensures { Asks held.old result held.new (TellsModule held.old from result handle.old handle.new) (handle.new ≡ handle.old) }
{
    let Some(kernel) = taken(held, alloc) else {
        return NO_MACHINE;
    };
    let found = kernel.module_from(from);
    put_back(held, alloc, kernel);
    told(END, found, handle)
}

/// The name of a module or a built-in.
#[unsafe(no_mangle)]
pub extern "C" fn w16_module_name(
    alloc: Global,
    held: &mut Held,
    handle: u16,
    into: &mut [u8],
    length: &mut usize,
) -> u8
    ensures { Asks held.old result held.new (TellsName NO_MODULE (option_map name_of (finmap.get (modules_of held.old) handle)) result into.old into.new length.old length.new)
        ((into.new ≡ into.old) × (length.new ≡ length.old)) }
{
    let Some(kernel) = taken(held, alloc) else {
        return NO_MACHINE;
    };
    let status = told_name(NO_MODULE, kernel.module_name(handle), into, length);
    put_back(held, alloc, kernel);
    status
}

/// The name of the file that a module was loaded from.
#[unsafe(no_mangle)]
pub extern "C" fn w16_module_file(
    alloc: Global,
    held: &mut Held,
    handle: u16,
    into: &mut [u8],
    length: &mut usize,
) -> u8
    ensures { Asks held.old result held.new (TellsName NO_MODULE (option_map (λ m. m.file) (module_at (modules_of held.old) handle)) result into.old into.new length.old length.new)
        ((into.new ≡ into.old) × (length.new ≡ length.old)) }
{
    let Some(kernel) = taken(held, alloc) else {
        return NO_MACHINE;
    };
    let status = told_name(NO_MODULE, kernel.module_file(handle), into, length);
    put_back(held, alloc, kernel);
    status
}

/// Puts an entry's name to the begin of a buffer, and its ordinal and far pointer where they go.
fn told_export(
    nothing: u8,
    export: Option<Export<'_>>,
    into: &mut [u8],
    length: &mut usize,
    ordinal: &mut u16,
    pointer: &mut u32,
) -> u8
    ensures { TellsExport nothing (option_map (λ e. (e.name.now, (e.ordinal, e.pointer))) export.entry) result into.old into.new length.old length.new (ordinal.old, pointer.old) (ordinal.new, pointer.new) }
{
    let Some(export) = export else {
        return nothing;
    };
    let status = told_name(nothing, Some(export.name), into, length);
    if status == DONE {
        *ordinal = export.ordinal;
        *pointer = export.pointer;
    }
    status
}

/// A name of an entry of a module, by its index from 0, with its ordinal and the far pointer that this leads to.
#[unsafe(no_mangle)]
pub extern "C" fn w16_export_from(
    alloc: Global,
    held: &mut Held,
    handle: u16,
    index: usize,
    into: &mut [u8],
    length: &mut usize,
    ordinal: &mut u16,
    pointer: &mut u32,
) -> u8
    ensures { Asks held.old result held.new (TellsExport (end_of (module_at (modules_of held.old) handle)) (export_in (modules_of held.old) handle index)
        result into.old into.new length.old length.new (ordinal.old, pointer.old) (ordinal.new, pointer.new))
        ((into.new ≡ into.old) × (length.new ≡ length.old) × (ordinal.new ≡ ordinal.old) × (pointer.new ≡ pointer.old)) }
{
    let Some(kernel) = taken(held, alloc) else {
        return NO_MACHINE;
    };
    let end = end_at(&kernel, handle);
    let status = told_export(
        end,
        kernel.export_at(handle, index),
        into,
        length,
        ordinal,
        pointer,
    );
    put_back(held, alloc, kernel);
    status
}

/// Marks a handle in a table, and answers it, if there is one.
fn marked(next: Option<u16>, marks: &mut [u8], handle: &mut u16) -> u8
    requires { IfSome next (λ next. next < length marks.old) }
    ensures { Marks next result marks.old marks.new handle.old handle.new }
{
    match next {
        Some(next) => {
            marks[usize::from(next)] = 1;
            *handle = next;
            DONE
        }
        None => END,
    }
}

/// The next module that was loaded, of those that a table doesn't mark, a byte for each module handle; it is marked there. It comes after those that its
/// file refers to, except where they lead back to it.
#[unsafe(no_mangle)]
pub extern "C" fn w16_next_loaded(
    alloc: Global,
    held: &mut Held,
    marks: &mut [u8],
    handle: &mut u16,
) -> u8
    ensures { Asks held.old result held.new ((next : Option ℕ) × ComesNext (modules_of held.old) marks.old next × Marks next result marks.old marks.new handle.old handle.new)
        ((marks.new ≡ marks.old) × (handle.new ≡ handle.old)) }
{
    let Some(kernel) = taken(held, alloc) else {
        return NO_MACHINE;
    };
    let next = kernel.next_loaded(marks);
    put_back(held, alloc, kernel);
    marked(next, marks, handle)
}

/// The next module that `FreeLibrary` of a handle would free, once those are gone that such a table marks; it is marked there.
#[unsafe(no_mangle)]
pub extern "C" fn w16_would_free(
    alloc: Global,
    held: &mut Held,
    ended: u16,
    marks: &mut [u8],
    handle: &mut u16,
) -> u8
    ensures { Asks held.old result held.new ((next : Option ℕ) × GoesNext (modules_of held.old) ended marks.old next × Marks next result marks.old marks.new handle.old handle.new)
        ((marks.new ≡ marks.old) × (handle.new ≡ handle.old)) }
{
    let Some(kernel) = taken(held, alloc) else {
        return NO_MACHINE;
    };
    let next = kernel.next_freed(ended, marks);
    put_back(held, alloc, kernel);
    marked(next, marks, handle)
}
