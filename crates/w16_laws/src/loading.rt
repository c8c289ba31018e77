//! The laws of `w16_loading`. Each function does nothing: its contract is the law.
ghost use Rattle.w16_laws.specs.Loading.{AreFigures, BoundAlikeLaw, BoundOnceLaw, CallsKeepWorldsLaw, ClosureEndsLaw, ClosureFilesLaw, EarlyRefusalLaw, FetchAgainLaw, FetchFaultsLaw, FetchLaw, FetchRefusedLaw, FillsLaw, OneClosureLaw, OneEndLaw, RefusedLoadLaw, SlotsLaw, UsesApartLaw};
ghost use Rattle.w16_laws.specs.ModuleEffects.{BuiltInLaw, FindLaw, FreeLaw, LoadLaw, LoadResourceLaw, LockResourceLaw, NamedLaw, SizeofLaw};
ghost use Rattle.w16_loading.specs.Bystanders.{StepBystandersLaw, StepPinnedLaw};
ghost use Rattle.w16_loading.specs.Fewest.{RequestsFewestLaw};
ghost use Rattle.w16_loading.specs.Law.{AnyStepLaw, CodeLaw, CodeReadsLaw, EmptyLaw, EmptyOfFilesLaw, FillLaw, KeepsWorldsLaw, OwnersLaw, TakenBackLaw, UndoneLaw, ValuesLaw};
ghost use Rattle.w16_loading.specs.Owner.{OwnerLaw};

use w16_store::Store;

/// The figures of the profile are these numbers. Definitions and code share the constants, so only this law would see a
/// wrong one.
pub fn figures_of_modules()
    ensures { AreFigures }
{}

/// A fetch takes the bytes of what it discards, and keeps all else of the other objects.
pub fn fetches_keep_others<S: Store>()
    ensures { FetchLaw S.is_honest }
{}

/// A refused fetch changes nothing.
pub fn refused_fetch_changes_nothing<S: Store>()
    ensures { FetchRefusedLaw S.is_honest }
{}

/// Files decide which modules a load finds.
pub fn files_decide_a_closure()
    ensures { OneClosureLaw }
{}

/// A load that is refused before it takes a handle changes nothing.
pub fn early_refusal_changes_nothing<S: Store>()
    ensures { EarlyRefusalLaw S.is_honest }
{}

/// An allocation and a write give a segment its bytes.
pub fn segments_are_allocated_and_written()
    ensures { FillLaw }
{}

/// The world in which nothing is loaded is one.
pub fn nothing_loaded_is_a_world()
    ensures { EmptyLaw }
{}

/// A load comes to an end over any files, also where each asks for one more: handles are few.
pub fn each_closure_ends()
    ensures { ClosureEndsLaw }
{}

/// Over an honest store a load finds what the files say.
pub fn closures_are_their_files<S: Store>()
    ensures { ClosureFilesLaw S.is_honest }
{}

/// What a load that has got no bytes yet takes back leaves the world as it was.
pub fn names_are_taken_back()
    ensures { UndoneLaw }
{}

/// The requests of a load discard what they may, and keep all else.
pub fn loads_discard_alone<S: Store>()
    ensures { FillsLaw S.is_honest }
{}

/// What was bound at load stays.
pub fn modules_are_bound_once<S: Store>()
    ensures { BoundOnceLaw S.is_honest }
{}

/// Code that was discarded and is fetched has the bytes that it had.
pub fn fetched_code_is_as_it_was<S: Store>()
    ensures { FetchAgainLaw S.is_honest }
{}

/// Taking an explicit use away never lets a module go that others import, or that has another use, and changes nothing else.
pub fn uses_and_importers_are_apart()
    ensures { UsesApartLaw }
{}

/// What calls of modules and resources are for: look-ups answer what has the name, loads use a module
/// whose segments have bytes, and LoadResource, LockResource and FreeResource count loads and locks.
pub fn calls_of_modules_do_what_they_are_for<S: Store>()
    ensures named { NamedLaw S.is_honest }
    ensures built_in { BuiltInLaw S.is_honest }
    ensures find { FindLaw S.is_honest }
    ensures size { SizeofLaw S.is_honest }
    ensures free { FreeLaw S.is_honest }
    ensures load { LoadLaw S.is_honest }
    ensures load_resource { LoadResourceLaw S.is_honest }
    ensures lock_resource { LockResourceLaw S.is_honest }
{}

/// Which unused module goes first doesn't matter.
pub fn modules_go_to_one_end()
    ensures { OneEndLaw }
{}

/// A refused load leaves all but its discards as it was, however far it came.
pub fn refused_loads_leave_discards<S: Store>()
    ensures { RefusedLoadLaw S.is_honest }
{}

/// Code that has bytes has those that its file gives it, relocated, after each step of each family, whatever was moved,
/// discarded or fetched.
pub fn code_reads_as_its_file<S: Store>()
    ensures { CodeLaw S.is_honest }
{}

/// Over files that stay, only the device and want of room refuse a fetch.
pub fn fetches_are_never_damaged<S: Store>()
    ensures { FetchFaultsLaw S.is_honest }
{}

/// Where nothing is loaded, all that is loaded is of its file.
pub fn nothing_loaded_is_of_files()
    ensures { EmptyOfFilesLaw }
{}

/// The calls on handles keep what holds of every world: modules keep their objects, of the kinds and sizes that their files say.
pub fn calls_keep_worlds()
    ensures { CallsKeepWorldsLaw }
{}

/// Each step of each family keeps what holds of every world, over any store, one that lies too.
pub fn steps_keep_worlds<S: Store>()
    ensures { KeepsWorldsLaw S.is_honest }
{}

/// What a far read of code answers is a part of its file's bytes, relocated, also where it is fetched for the read.
pub fn reads_of_code_are_its_files<S: Store>()
    ensures { CodeReadsLaw S.is_honest }
{}

/// A step over an honest store is a step over any store.
pub fn steps_are_steps_over_any_store<S: Store>()
    ensures { AnyStepLaw S.is_honest }
{}

/// Each request of a step discards as few objects as it can, and is refused only where there is no room: that of a fetch, and those of a load.
pub fn requests_of_steps_discard_fewest<S: Store>()
    ensures { RequestsFewestLaw S.is_honest }
{}

/// Whatever the store answers, an object that is there keeps its owner or has none any more: none comes to be a
/// module's, or code.
pub fn objects_keep_their_owners<S: Store>()
    ensures { OwnersLaw S.is_honest }
{}

/// Each slot's object is the script's, or of one segment or one resource, and it is told which.
pub fn owners_are_told()
    ensures { OwnerLaw }
{}

/// Objects that were added are taken away again, however many were added, and the world is as it was.
pub fn objects_are_taken_back()
    ensures { TakenBackLaw }
{}

/// There are slots for the segments of a load exactly where as many are free.
pub fn slots_are_chosen_by_count()
    ensures { SlotsLaw }
{}

/// What a relocation record is bound to depends on the slots, tables and imports of modules, and on no values.
pub fn values_depend_on_no_values()
    ensures { ValuesLaw }
{}

/// So a load may bind its modules one after another, whichever have values already.
pub fn loads_bind_by_names_alone()
    ensures { BoundAlikeLaw }
{}

/// Whatever the store answers, an object that a step isn't about stays as it is; or it is discardable and not locked,
/// and loses its bytes
/// alone; or it is gone with its module or resource. A fixed or locked one keeps its address through every step but its
/// own reallocation and
/// freeing.
pub fn steps_keep_bystanders<S: Store>()
    ensures bystanders { StepBystandersLaw S.is_honest }
    ensures pinned { StepPinnedLaw S.is_honest }
{}
