//! The laws of relocation's definitions. Each function does nothing: its contract is the law.
ghost use Rattle.w16_reloc.specs.Law.{PassedLaw, SoundLaw, FaultLaw, WrittenLaw, FetchedLaw, NamingLaw, ImageLaw, ImageOfLaw, ImageBytesLaw};

/// A check says yes exactly where a segment is sound, and tells its records.
pub fn sound_segments_pass()
    ensures passed { PassedLaw }
    ensures sound { SoundLaw }
{}

/// A check that says no tells the first fault.
pub fn first_faults_are_told()
    ensures { FaultLaw }
{}

/// What is written link by link is the image, offset by offset.
pub fn writes_the_image()
    ensures { WrittenLaw }
{}

/// Two fetches of a segment have the same bytes.
pub fn fetches_are_equal()
    ensures { FetchedLaw }
{}

/// A sound segment names its sites, and has its image, by functions of its file's data, its records and their values.
pub fn images_are_functions()
    ensures naming { NamingLaw }
    ensures image { ImageLaw }
    ensures room { ImageOfLaw }
    ensures bytes { ImageBytesLaw }
{}
