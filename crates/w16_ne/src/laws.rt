//! The laws of the format's definitions. Each function does nothing: its contract is the law.
ghost use Rattle.w16_ne.specs.Law.{NamesFormatLaw, SegmentsFormatLaw, EntriesFormatLaw, ModuleFormatLaw, OneModuleLaw, PartsLaw, FrontLaw};
ghost use Rattle.std.specs.Prelude.{◌≡◌};
ghost use Rattle.w16_ne.specs.declared.name_piece.TheConstants.{PIECE};
ghost use Rattle.w16_ne.specs.declared.segment_table.TheConstants.{LARGEST_SEGMENT, SEGMENT_UNIT};
ghost use Rattle.w16_ne.specs.declared.text_window.TheConstants.{TEXTS};

/// The figures by which files are read are these numbers. Definitions and code share the constants, so only this law
/// would see a wrong one.
pub fn figures_of_files()
    ensures largest { LARGEST_SEGMENT ≡ 65536 }
    ensures unit { SEGMENT_UNIT ≡ 32 }
    ensures texts { TEXTS ≡ 65791 }
    ensures piece { PIECE ≡ 1024 }
{}

/// Names are read exactly where they are: a reading is what its bytes say, and what they say is read.
pub fn names_are_read_where_they_are()
    ensures { NamesFormatLaw }
{}

/// Segments are read exactly where they are: their entries in the table, their data and the relocation records after them.
pub fn segments_are_read_where_they_are()
    ensures { SegmentsFormatLaw }
{}

/// Entries are read exactly where they are, bundle by bundle.
pub fn entries_are_read_where_they_are()
    ensures { EntriesFormatLaw }
{}

/// A module is read exactly where its header, its tables, its texts and its data lie in the file.
pub fn modules_are_read_where_they_are()
    ensures { ModuleFormatLaw }
{}

/// A file has one module, or one fault and then no module.
pub fn a_file_has_one_module_or_one_fault()
    ensures { OneModuleLaw }
{}

/// A fault that is told with its part is the file's first fault.
pub fn parts_have_the_first_fault()
    ensures { PartsLaw }
{}

/// A front of an accepted file has the same tables, or ends too early: it is `NotMz`, `NotNe`, `Truncated` or
/// `BadTable`, and nothing else.
pub fn fronts_are_accepted_or_too_short()
    ensures { FrontLaw }
{}
