//! Bits of a word of flags (GlobalAlloc, GlobalFlags, LocalAlloc, LocalFlags).
ghost use Rattle.std.specs.Prelude.{◌≡◌, if◌then◌else◌};
ghost use Rattle.w16_model.specs.Calls as calls;

/// Whether flags have a flag, or any of several.
pub fn has_flag(flags: u16, flag: u16) -> bool
    ensures { result ≡ calls.has_flag flags flag }
{
    flags & flag != 0
}

/// A bit where it is set, else 0.
pub fn bit_if(set: bool, bit: u16) -> u16
    ensures { result ≡ if set then bit else 0 }
{
    if set { bit } else { 0 }
}
