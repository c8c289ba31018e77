//! The laws of steps and runs of the whole machine. Each function does nothing: its contract is the law.
ghost use Rattle.w16_laws.specs.Runs.{RunSparesLaw, FewestLaw, RunFilesLaw, RunWorldLaw, RowNamesLaw};
ghost use Rattle.w16_machine.specs.Bystanders.{StepSparesLaw};
ghost use Rattle.w16_machine.specs.{Law.ApartLaw, Law.EmptyLaw, Law.FilesLaw, Law.WorldLaw, Rows.ReplyKindLaw};

use w16_store::Store;

/// The world in which nothing is allocated and nothing loaded is one, and all in it is of its file.
pub fn nothing_allocated_is_a_world()
    ensures { EmptyLaw }
{}

/// Over a store of which nothing is known each step keeps what holds of every world: no two objects share a byte, each stands in memory, each
/// local heap lies in its segment and in no code, and the rest. Over an honest store code still reads as its file's relocated bytes.
pub fn steps_keep_worlds<S: Store>()
    ensures worlds { WorldLaw S.is_honest }
    ensures files { FilesLaw S.is_honest }
{}

/// So do whole runs.
pub fn runs_keep_worlds<S: Store>()
    ensures worlds { RunWorldLaw S.is_honest }
    ensures files { RunFilesLaw S.is_honest }
{}

/// Each step's reply is of the kind that the table of the commands has for its command, whatever the store answers.
pub fn replies_are_of_their_kinds<S: Store>()
    ensures { ReplyKindLaw S.is_honest }
{}

/// The table of the commands has their names: what a row makes of arguments, whichever, has the row's name.
pub fn rows_make_commands_of_their_names()
    ensures { RowNamesLaw }
{}

/// In no world do two objects share a byte, neither two of the global heap nor two of a local one.
pub fn objects_share_no_byte()
    ensures { ApartLaw }
{}

/// In every run each call for room discards as few objects as it can, of the global heap or of a local one, whichever way the others slide,
/// and is refused for room only where no discards would have made it, nor any growth of a local heap.
pub fn runs_discard_fewest<S: Store>()
    ensures { FewestLaw S.is_honest }
{}

/// DS is changed by the command `DS` alone. Each step, whatever it is and whatever the store answers, leaves objects that it isn't about their
/// bytes, unless they are discardable and not locked; and a fixed or locked object its address, but for its own reallocation and freeing. A local
/// call changes bytes of one local heap, whose segment may get more. The same holds of the objects of each local heap that stays.
pub fn steps_spare_other_objects<S: Store>()
    ensures { StepSparesLaw S.is_honest }
{}

/// So does each step of a run.
pub fn runs_spare_other_objects<S: Store>()
    ensures { RunSparesLaw S.is_honest }
{}
