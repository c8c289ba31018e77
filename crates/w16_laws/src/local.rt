//! The laws of local heaps. Each function does nothing: its contract is the law.
ghost use Rattle.w16_laws.specs.LocalHeaps.{AreFigures, AreFlags, FarLaw, GoneLaw, GrowthLaw, NamedLaw, NeverBackLaw, OneGrowthLaw, OrderLaw, OutcomeLaw, PlacesLaw, QueriesLaw};
ghost use Rattle.w16_machine.specs.LocalLaw.{BeginLaw, FrameLaw, GoesLaw, NamesLaw, NewHeapLaw, OthersLaw, PinnedLaw};
ghost use Rattle.w16_machine.specs.LocalFewest.{AllocLaw, CompactLaw, ReallocLaw};
ghost use Rattle.w16_laws.specs.LocalEffects.{DiscardLaw, FreeLaw, LockLaw, ModifyLaw, RefusedLaw, UnlockLaw};
ghost use Rattle.w16_machine.specs.LocalStays.{HeapsLaw, LocalSamePlacesLaw, SamePlacesLaw};

use w16_store::Store;

/// The figures of local heaps and the flags of the Local calls are these numbers.
pub fn figures_of_local_heaps()
    ensures figures { AreFigures }
    ensures flags { AreFlags }
{}

/// In a local heap a name, and a near pointer, is found exactly where an object has it: no two objects have one name. Each has one.
pub fn local_names_are_exact()
    ensures names { NamesLaw }
    ensures named { NamedLaw }
{}

/// A local heap begins exactly where these conditions hold, over the range from start rounded up to end rounded down, and without objects.
pub fn local_heaps_begin_empty()
    ensures begin { BeginLaw }
    ensures empty { NewHeapLaw }
{}

/// A local call changes bytes in the range of the current heap alone, and no address, no order of use and no other heap of the world. Where the
/// heap grows for it, that growth is a `GlobalReAlloc` of its segment: it may move other objects and discard some, with their local heaps, and
/// leaves the number of bytes moved.
pub fn local_calls_keep_the_rest()
    ensures rest { FrameLaw }
    ensures growth { GrowthLaw }
{}

/// LocalSize, LocalFlags, LocalHandle, and LocalCompact for 0 bytes, only tell: they change nothing.
pub fn local_queries_change_nothing()
    ensures { QueriesLaw }
{}

/// A local heap goes exactly where its segment loses its range, and only LocalInit brings one, which has no object.
pub fn local_heaps_never_come_back<S: Store>()
    ensures goes { GoesLaw S.is_honest }
    ensures never { NeverBackLaw S.is_honest }
    ensures gone { GoneLaw S.is_honest }
{}

/// An object of the current heap that a local call doesn't name keeps its kind, its locks and its bytes, or it is discardable and not locked, and
/// the call asks for room and discards it. Only such a call moves objects, the named one included. A fixed or locked object keeps its near
/// pointer through every call but its own freeing and reallocation to a size other than 0. In the heap's order of use all but the object that the
/// call names stand as they did.
pub fn local_calls_keep_other_objects()
    ensures others { OthersLaw }
    ensures places { PlacesLaw }
    ensures pinned { PinnedLaw }
    ensures order { OrderLaw }
{}

/// A local lock, unlock, free, change of kind or discard that nothing refuses does to the object that it names what it is for. The laws above
/// say what stays, and would hold of calls that do nothing.
pub fn local_calls_do_what_they_are_for()
    ensures locks { LockLaw }
    ensures unlocks { UnlockLaw }
    ensures frees { FreeLaw }
    ensures kinds { ModifyLaw }
    ensures discards { DiscardLaw }
{}

/// A local call that is refused of the object that it names changes nothing: a lock of one that is absent, fixed or has 255 locks, an unlock or
/// a change of kind of a fixed one, the freeing of a locked one, and a discard of one that is locked or not discardable.
pub fn refused_local_calls_change_nothing()
    ensures { RefusedLaw }
{}

/// A local allocation isn't both refused and answered, and a heap doesn't both grow for it and not.
pub fn local_allocations_have_one_outcome()
    ensures outcome { OutcomeLaw }
    ensures growth { OneGrowthLaw }
{}

/// A far access changes bytes of local objects, and nothing else of any local heap.
pub fn far_accesses_keep_local_heaps()
    ensures { FarLaw }
{}

/// A local call for room discards as few objects of its heap as it can, whichever way the others slide, and is refused for room only where
/// no discards would have made it; then nothing changes. A heap grows only where it has no room, no farther than it must, and by a request for
/// its segment that discards as few objects as it can; and it doesn't grow only where no growth would do or its segment doesn't get the size.
pub fn local_calls_discard_fewest()
    ensures alloc { AllocLaw }
    ensures realloc { ReallocLaw }
    ensures compact { CompactLaw }
{}

/// Calls that ask for room, that free or cut an object, loads, fetches and modules or resources that go alone may take bytes of an object: a
/// step of any other command leaves each where it is, with as many, and each local heap. So does a local call for which no heap may grow.
pub fn other_steps_keep_local_heaps<S: Store>()
    ensures places { SamePlacesLaw S.is_honest }
    ensures heaps { HeapsLaw S.is_honest }
    ensures locals { LocalSamePlacesLaw }
{}
