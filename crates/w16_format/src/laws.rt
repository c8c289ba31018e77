//! The laws of the format. Each function does nothing: its contract is the law.
ghost use Rattle.w16_format.specs.Law.{AcceptedLaw, ApartLaw, EntryLaw, FormatLaw, MissingLaw, NameLaw, PlaceLaw, PlainLaw, RefusedLaw, RelocatedLaw, ResourceBytesLaw, RoomLaw, SegmentBytesLaw, SegmentLaw, SoundLaw, StoredLaw, WordsLaw};
ghost use Rattle.w16_format.specs.Samples.{SamplesLaw};

/// NE files are a format as loading asks it: sizes and images go together, and each refusal is one that a format may give.
pub fn ne_files_are_a_format()
    ensures { FormatLaw }
{}

/// Of a file of bytes the format is what its tables say.
pub fn bytes_are_themselves()
    ensures plain { PlainLaw }
    ensures accepted { AcceptedLaw }
    ensures refused { RefusedLaw }
    ensures missing { MissingLaw }
{}

/// A segment that was checked and relocated has the format's targets and image.
pub fn segments_are_relocated()
    ensures segments { SegmentLaw }
    ensures words { WordsLaw }
    ensures relocated { RelocatedLaw }
    ensures room { RoomLaw }
{}

/// Loads and fetches get what the tables, the check and the relocation of a file give.
pub fn files_give_what_is_fetched()
    ensures sound { SoundLaw }
    ensures segments { SegmentBytesLaw }
    ensures resources { ResourceBytesLaw }
{}

/// What loading asks of a module's tables is what the file's tables answer: segments and resources by number, entries by ordinal and by name.
pub fn tables_answer_by_number_and_name()
    ensures entries { EntryLaw }
    ensures names { NameLaw }
    ensures places { PlaceLaw }
{}

/// Three files say what was worked out by hand.
pub fn samples_are_read_and_relocated()
    ensures { SamplesLaw }
{}

/// A module of a world that is of its files has a file that still says what the module was loaded with.
pub fn modules_keep_what_their_files_say()
    ensures apart { ApartLaw }
    ensures stored { StoredLaw }
{}
