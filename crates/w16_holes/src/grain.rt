//! How many units of grain some bytes are.
ghost use Rattle.std.specs.Prelude.{◌≡◌, ◌%◌, ◌/◌, ◌<◌, ◌↔◌, IsTrue};
ghost use Rattle.std.specs.Int.{div_ceil};

/// How many whole units of grain lie in so many bytes. By each of the machine's two grains a division is a shift, which takes a tenth of
/// its time.
pub fn units_in(bytes: u32, grain: u32) -> u32
    requires { 0 < grain }
    ensures { result ≡ bytes / grain }
{
    if grain == 32 {
        bytes / 32
    } else if grain == 4 {
        bytes / 4
    } else {
        bytes / grain
    }
}

/// Whether a place is a multiple of the grain.
pub fn is_whole(place: u32, grain: u32) -> bool
    requires { 0 < grain }
    ensures { IsTrue result ↔ (place % grain ≡ 0) }
{
    if grain == 32 {
        place % 32 == 0
    } else if grain == 4 {
        place % 4 == 0
    } else {
        place % grain == 0
    }
}

/// How many units of grain so many bytes take, the last one wholly or in part.
pub fn units_over(bytes: u32, grain: u32) -> u32
    requires { 0 < grain }
    ensures { result ≡ div_ceil bytes grain }
{
    let whole = units_in(bytes, grain);
    if whole * grain < bytes {
        whole + 1
    } else {
        whole
    }
}
