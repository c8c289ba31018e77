//! The laws of `w16_model`. Each function does nothing: its contract is the law.
ghost use Rattle.w16_model.specs.Law.{AddressLaw, AnswerLaw, GapListLaw, PinnedLaw, RoomLaw, LeastLaw, MoreDiscardsLaw, OthersLaw, WalkLaw, SoundLaw, RangeLaw, NamesLaw, ReachLaw, EmptyLaw, HandleLaw};
ghost use Rattle.w16_model.specs.Fewest.{AllocationLaw, CompactionLaw, GlobalAllocLaw, GlobalCompactLaw};
ghost use Rattle.w16_model.specs.Reallocation.{HeapLaw, KindHeapLaw, DiscardHeapLaw, RestLaw, FewestLaw, MovesLaw, OneOutcomeLaw, KindLaw};
ghost use Rattle.w16_model.specs.CallLaws.{SlotsLaw, BystandersLaw, PinnedStayLaw, FarEffectLaw, ResizeLaw, ResizeFewestLaw, OneSlotLaw};
ghost use Rattle.w16_laws.specs.Heaps.{AreFigures, AreFlags, OutcomeLaw, RisingLaw, LongestHoleLaw, HoleAfterLaw, LargestLaw, LongerLaw, DiscardedLaw, OwnerLaw, SelectorsLaw, FarLaw, LeftOutLaw};
ghost use Rattle.w16_laws.specs.CallLaws.{ContentsLaw, MovedLaw, AttributesLaw, StillLaw, UseLaw, NewObjectLaw, UnorderedLaw, OthersOrderLaw, ReadBackLaw, NullLaw, ExtendedLaw, OldHandleLaw, PlaceLaw, SharedLaw};
ghost use Rattle.w16_laws.specs.CallEffects.{LockLaw, UnlockLaw, FreeLaw, ModifyLaw, DiscardLaw, AnsweredLaw};
ghost use Rattle.w16_model.specs.Outcomes.{CallOutcomesLaw};
ghost use Rattle.w16_model.specs.CallLaws.{SizeLaw};

/// The figures of the profile and the flags of the manual are these numbers. Definitions and code share the constants, so only this law
/// would see a wrong one.
pub fn figures_of_the_profile()
    ensures figures { AreFigures }
    ensures flags { AreFlags }
{}

/// The lists of gaps and of holes have each maximal interval, and nothing else.
pub fn lists_of_gaps_and_holes()
    ensures { GapListLaw }
{}

/// Where the blocks are by address, so are the holes.
pub fn holes_are_by_address()
    ensures { RisingLaw }
{}

/// No hole is longer than the longest, and one is as long.
pub fn longest_hole_is_a_hole()
    ensures { LongestHoleLaw }
{}

/// The hole directly after a block is the one that begins at its end.
pub fn hole_after_a_block()
    ensures { HoleAfterLaw }
{}

/// The longest hole is the room where every block is pinned.
pub fn longest_hole_is_room_of_pinned()
    ensures { PinnedLaw }
{}

/// Room is the largest, over all gaps, of a gap's length less the sizes of its loose blocks.
pub fn room_is_largest()
    ensures { LargestLaw }
{}

/// Room is the length of the longest free stretch of any arrangement.
pub fn room_is_longest_stretch()
    ensures { RoomLaw }
{}

/// A longer range has no less room.
pub fn longer_range_has_no_less_room()
    ensures { LongerLaw }
{}

/// Fewer discards than are needed never make room, whichever way the others slide; where none are enough, no number makes room.
pub fn fewer_discards_never_serve()
    ensures { LeastLaw }
{}

/// More discards never leave less room.
pub fn more_discards_leave_no_less_room()
    ensures { MoreDiscardsLaw }
{}

/// Once the first are discarded the room is what was promised.
pub fn discards_keep_their_promise()
    ensures { DiscardedLaw }
{}

/// A request for room discards as few objects as it can, whichever way the others slide, and is refused only where no discards would have
/// made room; then it discards none. A compaction answers the longest free stretch of any arrangement of what it leaves.
pub fn requests_discard_fewest()
    ensures allocation { AllocationLaw }
    ensures compaction { CompactionLaw }
{}

/// The same of the calls on handles.
pub fn calls_discard_fewest()
    ensures alloc { GlobalAllocLaw }
    ensures compact { GlobalCompactLaw }
{}

/// A request discards objects that are discardable and not locked, and leaves every other object its kind, its locks and its bytes.
pub fn others_are_kept()
    ensures { OthersLaw }
{}

/// A fixed or locked object keeps its address through every request and compaction that isn't about it, and with `GMEM_NOCOMPACT` every
/// object does.
pub fn pinned_objects_keep_their_address()
    ensures { AddressLaw }
{}

/// An allocation isn't both refused and answered.
pub fn allocations_have_one_outcome()
    ensures { OutcomeLaw }
{}

/// A reallocation leaves a heap, answered or not: no two objects share a byte, and the rest. So do a change of kind and a discard.
pub fn reallocations_leave_a_heap()
    ensures sizes { HeapLaw }
    ensures kinds { KindHeapLaw }
    ensures discards { DiscardHeapLaw }
{}

/// An answered reallocation gives the object as many bytes as it asks for, the old ones first, and leaves it its kind and its locks. All
/// others keep theirs but for those that it discards, and each keeps its place in the order of use.
pub fn reallocations_keep_the_rest()
    ensures { RestLaw }
{}

/// A reallocation discards as few objects as it can, whichever way the others slide, and is refused only where the object would get more
/// bytes and has no place for them.
pub fn reallocations_discard_fewest()
    ensures { FewestLaw }
{}

/// A reallocation moves no fixed or locked object but its own, that one only where it may, and nothing where the object is cut.
pub fn reallocations_move_little()
    ensures { MovesLaw }
{}

/// A reallocation isn't both refused and answered, and a refused one changes nothing.
pub fn reallocations_have_one_outcome()
    ensures { OneOutcomeLaw }
{}

/// A change of kind changes the kind and the order of use alone; a fixed object stays fixed.
pub fn kinds_change_alone()
    ensures { KindLaw }
{}

/// With an object counted as loose and left out, room is the longest free stretch of the arrangements of the others.
pub fn room_leaves_the_object_out()
    ensures { LeftOutLaw }
{}

/// `GlobalReAlloc` keeps what holds of handles, leaves the same heap where it is NULL, and discards as few objects as it can.
pub fn reallocations_keep_handles()
    ensures handles { ResizeLaw }
    ensures null { NullLaw }
    ensures fewest { ResizeFewestLaw }
    ensures one { OneSlotLaw }
    ensures old { OldHandleLaw }
    ensures extended { ExtendedLaw }
    ensures shared { SharedLaw }
    ensures place { PlaceLaw }
{}

/// Each heap has a walk, and no other.
pub fn each_heap_has_one_walk()
    ensures { WalkLaw }
{}

/// A sound table stands for a heap.
pub fn sound_table_stands_for_a_heap()
    ensures { SoundLaw }
{}

/// A heap isn't touched where memory changes outside its range alone.
pub fn ranges_are_apart()
    ensures { RangeLaw }
{}

/// A handle or a first selector names the object that has it, and no other.
pub fn names_are_exact()
    ensures { NamesLaw }
{}

/// Each slot is in one object's run at most, and each selector reaches bytes of its object, and none past the end. What a later selector of an
/// object says is by its number.
pub fn runs_are_apart()
    ensures owner { OwnerLaw }
    ensures reach { ReachLaw }
    ensures selectors { SelectorsLaw }
{}

/// The handles of a heap in which nothing is allocated are such, and each call and each far access keeps what holds of handles: no two
/// objects share a byte, each stands in memory, and the rest.
pub fn steps_keep_handles()
    ensures begin { EmptyLaw }
    ensures calls { HandleLaw }
    ensures accesses { FarLaw }
{}

/// Each call on handles has an outcome.
pub fn calls_have_outcomes()
    ensures { CallOutcomesLaw }
{}

/// A call that asks for no room and no other size, and frees nothing, keeps every address, byte and share bit; every call keeps the slots.
pub fn calls_keep_contents()
    ensures contents { ContentsLaw }
    ensures slots { SlotsLaw }
{}

/// The number of bytes moved is the sum of the sizes of the objects whose address changed, whichever handle they have then, told by each of the
/// three calls that ask for room or another size, and 0 where they are refused; no other call changes it.
pub fn moved_bytes_are_counted()
    ensures { MovedLaw }
{}

/// An object that a call isn't about stays as it is, or it is discardable and not locked, and loses its bytes alone; it keeps its attributes. A
/// fixed or locked one keeps its address through every call but its own reallocation with `GMEM_MOVEABLE`, and every other through calls that
/// ask for no room, or with `GMEM_NOCOMPACT`.
pub fn calls_keep_bystanders()
    ensures objects { BystandersLaw }
    ensures attributes { AttributesLaw }
    ensures pinned { PinnedStayLaw }
    ensures still { StillLaw }
{}

/// In the order of use a lock that is counted, `GlobalLRUNewest` and an allocation make their object the newest, and `GlobalLRUOldest` the
/// oldest; other calls give no object another place, and each call leaves the objects that it isn't about as they stand.
pub fn calls_order_one_object()
    ensures uses { UseLaw }
    ensures allocated { NewObjectLaw }
    ensures unordered { UnorderedLaw }
    ensures others { OthersOrderLaw }
{}

/// A far access that is answered reads or writes these bytes and no others, leaves every other object, every address and the rest, and is a
/// use of its object; what was written is read back.
pub fn accesses_reach_their_bytes()
    ensures effect { FarEffectLaw }
    ensures back { ReadBackLaw }
{}

/// A call that nothing refuses does what it is for, and a far access to bytes that are there is answered. The laws above say what stays, and
/// would hold of calls that do nothing.
pub fn calls_do_what_they_are_for()
    ensures locks { LockLaw }
    ensures unlocks { UnlockLaw }
    ensures frees { FreeLaw }
    ensures kinds { ModifyLaw }
    ensures discards { DiscardLaw }
    ensures sizes { SizeLaw }
    ensures accesses { AnsweredLaw }
{}

/// Which allocations and reallocations are answered is told from the heap before them.
pub fn answers_are_told_before()
    ensures { AnswerLaw }
{}
