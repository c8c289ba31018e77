//! Laws of the language, which have no code.
ghost use Rattle.w16_script.specs.Laws.{OneReading, EachIsPlain};
ghost use Rattle.std.specs.Prelude.{◌≡◌};
ghost use Rattle.w16_script.specs.declared.bytes.TheConstants.{MOST_BYTES};

/// A line writes at most this number of bytes. Definitions and code share the constant, so only this law would see a wrong one.
pub fn figure_of_written_bytes()
    ensures { MOST_BYTES ≡ 1024 }
{}

/// A line has only one reading.
pub fn one_reading()
    ensures { OneReading }
{}

/// A line with any other byte than a tab and those from 20 to 7E in hexadecimal says no command: unless it
/// is silent, it is bad.
pub fn plain_bytes()
    ensures { EachIsPlain }
{}
