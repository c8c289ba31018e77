//! Tests of the functions that C calls.
use super::*;
use std::alloc::Global;
use w16_kernel::Start;

/// Frees what is held, which is then none.
fn is_freed(alloc: Global, mut held: Held) -> bool {
    w16_free(alloc, &mut held);
    match held.into_parts(alloc) {
        Some(parts) => {
            drop(parts.into_box());
            false
        }
        None => true,
    }
}

/// A new machine of that many bytes for 16 objects, and whether there is one.
fn begun(alloc: Global, memory: u32) -> (Held, bool) {
    let mut held = Held::none();
    let status = w16_new(alloc, &mut held, memory, 16);
    (held, status == DONE)
}

/// Whether objects are allocated, locked, moved and discarded as they should, in a heap of 512 bytes.
fn objects_answer(alloc: Global, held: &mut Held) -> bool {
    let mut words = [0; 9];
    let mut dwords = [0; 7];
    let mut bytes = [0; 2];
    let statuses = [
        w16_global_alloc(alloc, held, 2, 128, &mut words[0]),
        w16_global_alloc(alloc, held, 2, 128, &mut words[1]),
        w16_global_alloc(alloc, held, 0x102, 128, &mut words[2]),
        w16_global_lock(alloc, held, 0x010e, &mut dwords[0]),
        w16_write(alloc, held, 0x010f_0000, b"hi"),
        w16_global_unlock(alloc, held, 0x010e, &mut words[3]),
        w16_global_free(alloc, held, 0x0106, &mut words[4]),
        w16_global_alloc(alloc, held, 2, 256, &mut words[5]),
        w16_moved(alloc, held, &mut dwords[1]),
        w16_read(alloc, held, 0x010f_0000, &mut bytes),
        w16_global_alloc(alloc, held, 2, 128, &mut words[6]),
        w16_global_flags(alloc, held, 0x0116, &mut words[7]),
        w16_global_alloc(alloc, held, 2, 32, &mut words[8]),
        w16_global_size(alloc, held, 0x010e, &mut dwords[2]),
        w16_global_handle(alloc, held, 0x010f, &mut dwords[3]),
        w16_get_selector_base(alloc, held, 0x010f, &mut dwords[4]),
        w16_get_selector_limit(alloc, held, 0x010f, &mut dwords[5]),
        w16_global_compact(alloc, held, 0, &mut dwords[6]),
    ];
    statuses == [DONE; 18]
        && words == [0x0106, 0x010e, 0x0116, 0, 0, 0x0106, 0x011e, 0x4100, 0]
        && dwords == [0x010f_0000, 0x100, 128, 0x010f_010e, 0, 127, 0]
        && bytes == *b"hi"
}

/// Whether the same heap answers as it should once an object is cut, and far accesses their faults.
fn bytes_answer(alloc: Global, held: &mut Held) -> bool {
    let mut words = [0; 5];
    let mut longest = 0;
    let mut bytes = [0; 2];
    let statuses = [
        w16_global_realloc(alloc, held, 0x0106, 128, 0, &mut words[0]),
        w16_global_compact(alloc, held, 0, &mut longest),
        w16_global_alloc(alloc, held, 0x102, 128, &mut words[1]),
        w16_global_lru_oldest(alloc, held, 0x0126, &mut words[2]),
        w16_global_lru_newest(alloc, held, 0x0126, &mut words[3]),
        w16_global_discard(alloc, held, 0x0126, &mut words[4]),
        w16_fill(alloc, held, 0x010f_0000, 128, 0x61),
        w16_read(alloc, held, 0x010f_007e, &mut bytes),
        w16_read(alloc, held, 0x010f_007f, &mut bytes),
        w16_read(alloc, held, 0x0127_0000, &mut bytes),
        w16_write(alloc, held, 0x0999_0000, b"hi"),
        w16_fill(alloc, held, 0x010f_0000, 65_537, 0),
    ];
    statuses[..8] == [DONE; 8]
        && statuses[8..] == [FAULT_LIMIT, FAULT_NOT_PRESENT, FAULT_SELECTOR, BAD_SIZE]
        && words == [0x0106, 0x0126, 0x0126, 0x0126, 0x0126]
        && (longest, bytes) == (128, *b"aa")
}

#[test]
fn calls_on_the_global_heap_are_made(rt: HostRuntime) {
    let (mut held, is_begun) = begun(rt.alloc(), 512);
    let good = objects_answer(rt.alloc(), &mut held) && bytes_answer(rt.alloc(), &mut held);
    assert!(rt; is_freed(rt.alloc(), held) && is_begun && good);
}

/// Whether a local heap in the second of two objects answers as it should.
fn local_heap_answers(alloc: Global, held: &mut Held) -> bool {
    let mut words = [0; 17];
    let statuses = [
        w16_global_alloc(alloc, held, 2, 32, &mut words[0]),
        w16_global_alloc(alloc, held, 0x42, 128, &mut words[1]),
        w16_local_init(alloc, held, 0x010f, 16, 128, &mut words[2]),
        w16_ds(alloc, held, 0x010f),
        w16_local_alloc(alloc, held, 0x42, 10, &mut words[3]),
        w16_local_alloc(alloc, held, 0x42, 8, &mut words[4]),
        w16_local_alloc(alloc, held, 0x42, 8, &mut words[5]),
        w16_local_free(alloc, held, 2, &mut words[6]),
        w16_local_lock(alloc, held, 6, &mut words[7]),
        w16_local_compact(alloc, held, 96, &mut words[8]),
        w16_local_unlock(alloc, held, 6, &mut words[9]),
        w16_local_compact(alloc, held, 96, &mut words[10]),
        w16_local_handle(alloc, held, 0x18, &mut words[11]),
        w16_local_size(alloc, held, 6, &mut words[12]),
        w16_local_realloc(alloc, held, 6, 0, 0x180, &mut words[13]),
        w16_local_flags(alloc, held, 6, &mut words[14]),
        w16_local_discard(alloc, held, 6, &mut words[15]),
        w16_local_flags(alloc, held, 6, &mut words[16]),
    ];
    statuses == [DONE; 18]
        && words[..9] == [0x0106, 0x010e, 1, 2, 6, 10, 0, 0x1c, 84]
        && words[9..] == [0, 96, 10, 8, 6, 0x0f00, 6, 0x4f00]
}

#[test]
fn calls_on_a_local_heap_are_made(rt: HostRuntime) {
    let (mut held, is_begun) = begun(rt.alloc(), 256);
    let good = local_heap_answers(rt.alloc(), &mut held);
    assert!(rt; is_freed(rt.alloc(), held) && is_begun && good);
}

/// Whether a new machine of 64 bytes has the parts that it should, an object before a hole.
fn has_parts(alloc: Global, held: &mut Held) -> bool {
    let mut part = Part {
        at: 0,
        size: 0,
        handle: 0,
        kind: 0,
        locks: 0,
    };
    let object = w16_walk_from(alloc, held, 0, &mut part) == DONE
        && (part.at, part.size, part.handle, part.kind, part.locks) == (0, 32, 0x0106, 2, 0);
    let hole = w16_walk_from(alloc, held, 32, &mut part) == DONE
        && (part.at, part.size, part.handle, part.kind, part.locks) == (32, 32, 0, 0, 0);
    object && hole && w16_walk_from(alloc, held, 64, &mut part) == END
}

#[test]
fn parts_are_told_one_by_one(rt: HostRuntime) {
    let mut held = Held::none();
    let begun = w16_new(rt.alloc(), &mut held, 64, 1) == DONE;
    let mut handle = 0;
    let allocated = w16_global_alloc(rt.alloc(), &mut held, 2, 20, &mut handle) == DONE;
    let told = has_parts(rt.alloc(), &mut held);
    assert!(rt; is_freed(rt.alloc(), held) && begun && allocated && told);
}

#[test]
fn an_empty_holder_has_a_status_of_its_own(rt: HostRuntime) {
    let mut held = Held::none();
    let bad = w16_new(rt.alloc(), &mut held, 33, 16) == BAD_SIZE;
    let mut handle = 7;
    let refused = w16_global_alloc(rt.alloc(), &mut held, 2, 20, &mut handle) == NO_MACHINE;
    let fileless = w16_add_file(rt.alloc(), &mut held, b"A", b"") == NO_MACHINE
        && misses(rt.alloc(), &mut held, NO_MACHINE, b"");
    let mut lent = Lent::of(b"none");
    let unlent = w16_find(rt.alloc(), &mut held, 0, 0, false, &mut lent) == NO_MACHINE;
    w16_free(rt.alloc(), &mut held);
    let kept = handle == 7 && lent.count == 4;
    assert!(rt; is_freed(rt.alloc(), held) && bad && refused && fileless && unlent && kept);
}

/// A library of one resource, number 1 of type 10, as examples/make-modules.py writes it.
static TRES: &[u8] =
    b"MZ\0\0\0\0\0\0\0\0\0\0\0\0\0\0\0\0\0\0\0\0\0\0\0\0\0\0\0\0\0\0\0\0\0\0\0\0\0\0\0\0\0\0\0\0\0\0\0\0\0\0\0\0\0\0\
    \0\0\0\0@\0\0\0NE\x05\x0a`\0\x01\0\0\0\0\0\0\x80\0\0\0\0\0\0\0\0\0\0\0\0\0\0\0\0\0\0\0\0@\0@\0X\0`\0`\0\0\0\0\
    \0\0\0\x04\0\0\0\x02\0\0\0\0\0\0\0\x0a\x03\x04\0\x0a\x80\x01\0\0\0\0\0\x0b\0\x01\00\x10\x01\x80\0\0\0\0\0\0\
    \x04TRES\0\0\0\0\0\0\0\0\0\0\0\0\0\0\0\0\0\0\0Hello, resource!";

/// A library without segments that refers to TRES.
static TTOP: &[u8] =
    b"MZ\0\0\0\0\0\0\0\0\0\0\0\0\0\0\0\0\0\0\0\0\0\0\0\0\0\0\0\0\0\0\0\0\0\0\0\0\0\0\0\0\0\0\0\0\0\0\0\0\0\0\0\0\0\0\
    \0\0\0\0@\0\0\0NE\x05\x0aP\0\x01\0\0\0\0\0\0\x80\0\0\0\0\0\0\0\0\0\0\0\0\0\0\0\0\x01\0\0\0@\0@\0@\0H\0J\0\0\0\
    \0\0\0\0\x04\0\0\0\x02\0\0\0\0\0\0\0\x0a\x03\x04TTOP\0\0\0\x01\0\0\x04TRES\0";

/// Whether calls on modules, one after another, answer as they should.
fn modules_answer(alloc: Global, held: &mut Held) -> bool {
    let mut words = [0; 7];
    let mut far = [0; 2];
    let statuses = [
        w16_load_library(alloc, held, b"TTOP.DLL", &mut words[0]),
        w16_module_import(alloc, held, 0x21, 0, &mut words[6]),
        w16_module_import(alloc, held, 0x21, 1, &mut words[0]),
        w16_load_module(alloc, held, b"TTOP.DLL", &mut words[1]),
        w16_get_module_usage(alloc, held, 0x21, &mut words[2]),
        w16_free_library(alloc, held, 0x21, &mut words[3]),
        w16_get_module_handle(alloc, held, b"tres", &mut words[4]),
        w16_builtin(alloc, held, b"KERNEL", &mut words[5]),
        w16_get_proc_address(alloc, held, 0x23, b"", 5, &mut far[0]),
        w16_get_proc_address(alloc, held, 0x23, b"GETA", 5, &mut far[1]),
    ];
    statuses == [DONE, DONE, END, DONE, DONE, DONE, DONE, DONE, DONE, DONE]
        && (words == [0x21, 0x21, 2, 1, 0x22, 0x23, 0x22] && far == [0x0023_0005, 0])
}

/// Whether calls on a resource answer as they should, and the module that has it goes at the end.
fn resources_answer(alloc: Global, held: &mut Held) -> bool {
    let mut words = [0; 8];
    let mut dwords = [0; 3];
    let mut bytes = [0; 5];
    let statuses = [
        w16_find_resource(alloc, held, 0x22, b"A", 1, b"", 10, &mut words[0]),
        w16_find_resource(alloc, held, 0x22, b"", 1, b"", 10, &mut words[1]),
        w16_sizeof_resource(alloc, held, 0x22, 1, &mut dwords[0]),
        w16_load_resource(alloc, held, 0x22, 1, &mut words[2]),
        w16_global_compact(alloc, held, 4096, &mut dwords[1]),
        w16_lock_resource(alloc, held, 0x0106, &mut dwords[2]),
        w16_read(alloc, held, 0x0107_0000, &mut bytes),
        w16_free_resource(alloc, held, 0x0106, &mut words[3]),
        w16_global_unlock(alloc, held, 0x0106, &mut words[4]),
        w16_free_resource(alloc, held, 0x0106, &mut words[5]),
        w16_free_module(alloc, held, 0x21, &mut words[6]),
        w16_get_module_handle(alloc, held, b"TRES", &mut words[7]),
    ];
    statuses == [DONE; 12]
        && words == [0, 1, 0x0106, 1, 0, 0, 0, 0]
        && dwords == [16, 4096, 0x0107_0000]
        && bytes == *b"Hello"
}

/// What a load of TTOP.DLL answers, once it is made.
fn loaded(alloc: Global, held: &mut Held) -> Option<u16> {
    let mut word = 0;
    if w16_load_library(alloc, held, b"TTOP.DLL", &mut word) != DONE {
        return None;
    }
    Some(word)
}

/// Whether the machine says of a missing file what is wanted.
fn misses(alloc: Global, held: &mut Held, wanted: u8, name: &[u8]) -> bool {
    let mut room = [0; 259];
    let mut length = 0;
    w16_missing_file(alloc, held, &mut room, &mut length) == wanted
        && length <= 259
        && &room[..length] == name
}

#[test]
fn a_file_is_never_replaced(rt: HostRuntime) {
    let alloc = rt.alloc();
    let (mut held, is_begun) = begun(alloc, 4096);
    let first = w16_add_file(alloc, &mut held, b"TTOP.DLL", b"") == DONE;
    let second = w16_add_file(alloc, &mut held, b"ttop.dll", TTOP) == EXISTS
        && w16_add_file(alloc, &mut held, b"", TTOP) == BAD_SIZE;
    let kept = loaded(alloc, &mut held) == Some(11) && misses(alloc, &mut held, NONE_MISSING, b"");
    assert!(rt; is_freed(alloc, held) && is_begun && first && second && kept);
}

#[test]
fn a_load_tells_which_file_it_misses(rt: HostRuntime) {
    let alloc = rt.alloc();
    let (mut held, is_begun) = begun(alloc, 4096);
    let mut length = 7;
    let first = loaded(alloc, &mut held) == Some(2)
        && misses(alloc, &mut held, DONE, b"TTOP.DLL")
        && w16_add_file(alloc, &mut held, b"TTOP.DLL", TTOP) == DONE;
    let second = loaded(alloc, &mut held) == Some(20)
        && misses(alloc, &mut held, DONE, b"TRES.DLL")
        && w16_missing_file(alloc, &mut held, &mut [0; 7], &mut length) == BAD_SIZE
        && w16_add_file(alloc, &mut held, b"tres.dll", TRES) == DONE
        && misses(alloc, &mut held, NONE_MISSING, b"");
    let good = modules_answer(alloc, &mut held) && resources_answer(alloc, &mut held);
    assert!(rt; is_freed(alloc, held) && is_begun && first && second && good && length == 7);
}

/// An application that begins at 1:2 with the stack at 2:40, whose second segment is the automatic data segment, with an entry GO.
static TGO: &[u8] =
    b"MZ\0\0\0\0\0\0\0\0\0\0\0\0\0\0\0\0\0\0\0\0\0\0\0\0\0\0\0\0\0\0\0\0\0\0\0\0\0\0\0\0\0\0\0\0\0\0\0\0\0\0\0\
    \0\0\0\0\0\0\0@\0\0\0NE\x05\x0a\x5c\0\x06\0\0\0\0\0\x02\x03\x02\0\0\x01\0\x02\x02\0\x01\0@\0\x02\0\x02\0\
    \0\0\0\0@\0P\0P\0\x5c\0\x5c\0\0\0\0\0\0\0\x04\0\0\0\x02\0\0\0\0\0\0\0\x0a\x03\x0b\0\x04\0\x10\x10\x04\0\
    \x0c\0\x04\0\x11\0\x04\0\x03TGO\0\0\x02GO\x01\0\0\x01\x01\x01\x02\0\0\0\0\0\0\0\0\0\0\0\0\0\0\0\0\x90\
    \xf4\x90\xf4\0\0\0\0\0\0\0\0\0\0\0\0data";

/// Whether a machine says of TGO where it begins, and which handles and selectors there are beside a built-in.
fn modules_are_told(alloc: Global, held: &mut Held) -> bool {
    let mut start = Start {
        entry: 0,
        stack: 0,
        automatic_data: 0,
        heap: 0,
        stack_size: 0,
        flags: 0,
    };
    let mut words = [0; 4];
    let mut lent = Lent::of(b"");
    let mut memory = Lent::of(b"");
    let statuses = [
        w16_load_module(alloc, held, b"TGO.EXE", &mut words[0]),
        w16_find(alloc, held, 0x0107_0000, 4, false, &mut lent),
        w16_find(alloc, held, 0x0107_0000, 3, true, &mut lent),
        w16_memory(alloc, held, &mut memory),
        w16_builtin(alloc, held, b"KERNEL", &mut words[1]),
        w16_module_start(alloc, held, 0x21, &mut start),
        w16_module_segment(alloc, held, 0x21, 2, &mut words[2]),
        w16_module_from(alloc, held, 0x22, &mut words[3]),
        w16_module_from(alloc, held, 0x23, &mut words[0]),
        w16_module_segment(alloc, held, 0x21, 3, &mut words[0]),
        w16_module_start(alloc, held, 0x22, &mut start),
    ];
    statuses[..4] == [DONE, DONE, FAULT_READ_ONLY, DONE]
        && statuses[4..] == [DONE, DONE, DONE, DONE, END, END, NO_MODULE]
        && (words == [0x21, 0x22, 0x010f, 0x22] && lent.count == 4 && memory.count == 4096)
        && (start.entry, start.stack, start.automatic_data) == (0x0107_0002, 0x010f_0040, 0x010f)
        && (start.heap, start.stack_size, start.flags) == (0x100, 0x200, 0x0302)
}

/// Whether it says the names of both, of TGO's file and of its entry, with that entry's ordinal and pointer.
fn names_are_told(alloc: Global, held: &mut Held) -> bool {
    let (mut built_in, mut file, mut entry) = ([0; 6], [0; 7], [0; 2]);
    let (mut length, mut ordinal, mut pointer) = (0, 0, 0);
    let statuses = [
        w16_module_name(alloc, held, 0x21, &mut [0; 2], &mut length),
        w16_module_name(alloc, held, 0x22, &mut built_in, &mut length),
        w16_module_file(alloc, held, 0x21, &mut file, &mut length),
        w16_export_from(
            alloc,
            held,
            0x21,
            0,
            &mut entry,
            &mut length,
            &mut ordinal,
            &mut pointer,
        ),
    ];
    statuses == [BAD_SIZE, DONE, DONE, DONE]
        && (built_in == *b"KERNEL" && file == *b"TGO.EXE" && entry == *b"GO")
        && (length, ordinal, pointer) == (2, 1, 0x0107_0002)
}

/// Whether TGO is told once of those that were loaded and once of those that would go, and its file goes only after it.
fn module_goes(alloc: Global, held: &mut Held) -> bool {
    let (mut loaded, mut gone) = ([0; 64], [0; 64]);
    let (mut handles, mut left) = ([0; 4], 1);
    let statuses = [
        w16_next_loaded(alloc, held, &mut loaded, &mut handles[0]),
        w16_next_loaded(alloc, held, &mut loaded, &mut handles[1]),
        w16_would_free(alloc, held, 0x22, &mut gone, &mut handles[1]),
        w16_would_free(alloc, held, 0x21, &mut gone, &mut handles[2]),
        w16_would_free(alloc, held, 0x21, &mut gone, &mut handles[3]),
        w16_remove_file(alloc, held, b"tgo.exe"),
        w16_free_library(alloc, held, 0x21, &mut left),
        w16_remove_file(alloc, held, b"tgo.exe"),
        w16_remove_file(alloc, held, b"TGO.EXE"),
    ];
    statuses == [DONE, END, END, DONE, END, IN_USE, DONE, DONE, NO_FILE]
        && (handles == [0x21, 0, 0x21, 0] && left == 0 && loaded[0x21] == 1)
}

#[test]
fn modules_are_told_one_by_one(rt: HostRuntime) {
    let alloc = rt.alloc();
    let (mut held, is_begun) = begun(alloc, 4096);
    let added = w16_add_file(alloc, &mut held, b"TGO.EXE", TGO) == DONE;
    let told = modules_are_told(alloc, &mut held) && names_are_told(alloc, &mut held);
    let good = told && module_goes(alloc, &mut held);
    assert!(rt; is_freed(alloc, held) && is_begun && added && good);
}

/// What nothing tells.
const NOTHING: Descriptor = Descriptor {
    base: 0,
    limit: 0,
    object: 0,
    present: 0,
    code: 0,
};

/// Whether descriptors answer as they should, of two discardable objects of 128 bytes in a heap of 256.
fn descriptors_answer(alloc: Global, held: &mut Held) -> bool {
    let mut known = [NOTHING; 64];
    let mut slots = [32, 32, 33, 34];
    let mut told = NOTHING;
    let statuses = [
        w16_next_changed(alloc, held, &mut known, &mut slots[0]),
        w16_next_changed(alloc, held, &mut known, &mut slots[1]),
        w16_next_changed(alloc, held, &mut known, &mut slots[2]),
        w16_next_changed(alloc, held, &mut known, &mut slots[3]),
        w16_get_descriptor(alloc, held, 0x010f, &mut told),
        w16_get_descriptor(alloc, held, 0x010e, &mut told),
    ];
    let second = Descriptor {
        base: 128,
        limit: 127,
        object: 0x010e,
        present: 1,
        code: 0,
    };
    statuses == [DONE, DONE, END, END, DONE, FAULT_SELECTOR]
        && slots == [32, 33, 33, 34]
        && told == second
        && known[33] == second
        && known[32].object == 0x0106
}

/// Whether a look at the older of them leaves it the older: a third object takes its bytes.
fn looks_are_no_use(alloc: Global, held: &mut Held) -> bool {
    let mut bytes = [0; 2];
    let mut handle = 0;
    let mut told = NOTHING;
    let statuses = [
        w16_peek(alloc, held, 0x0107_0001, &mut bytes),
        w16_peek(alloc, held, 0x0107_007f, &mut bytes),
        w16_global_alloc(alloc, held, 2, 128, &mut handle),
        w16_peek(alloc, held, 0x0107_0001, &mut bytes),
        w16_get_descriptor(alloc, held, 0x0107, &mut told),
        w16_get_descriptor(alloc, held, 0x0117, &mut told),
    ];
    statuses == [DONE, FAULT_LIMIT, DONE, FAULT_NOT_PRESENT, DONE, DONE]
        && (handle, bytes) == (0x0116, *b"i!")
        && (told.base, told.object) == (0, 0x0116)
}

#[test]
fn looks_tell_and_change_nothing(rt: HostRuntime) {
    let alloc = rt.alloc();
    let (mut held, is_begun) = begun(alloc, 256);
    let mut handle = 0;
    let mut lent = Lent::of(b"");
    let made = [
        w16_global_alloc(alloc, &mut held, 0x102, 128, &mut handle),
        w16_global_alloc(alloc, &mut held, 0x102, 128, &mut handle),
        w16_write(alloc, &mut held, 0x010f_0000, b"ho!"),
        w16_write(alloc, &mut held, 0x0107_0000, b"hi!"),
        w16_find(alloc, &mut held, 0x010f_0000, 128, true, &mut lent),
    ];
    let unlent = w16_find(alloc, &mut held, 0x0107_0000, 129, true, &mut lent) == FAULT_LIMIT;
    let good = descriptors_answer(alloc, &mut held) && looks_are_no_use(alloc, &mut held);
    let lends = unlent && lent.count == 128;
    assert!(rt; is_freed(alloc, held) && is_begun && made == [DONE; 5] && good && lends);
}
