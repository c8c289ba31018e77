//! The header: where it stands, its bytes, and the tests of its fields.
ghost use Rattle.std.specs.Prelude.{◌≡◌, ℕ, ◌<◌, ◌≤◌, ◌+◌, length, OnOk, IfErr};
ghost use Rattle.w16_store.specs.Files.{file_of};
ghost use Rattle.w16_store.specs.Later.{IsLater, RoseIf};
ghost use Rattle.w16_ne.specs.Reading.{Gives, Tells, is_ne_device};
ghost use Rattle.w16_ne.specs.Header.{place_at, header_at, fields_of, shift_of, segment_count};

use crate::fault::NeFault;
use crate::reading::{dword, read_or, word};
use w16_store::Store;

/// The offset of the header.
#[tactic(auto, unfolding(crate::specs::Header::place_at))]
pub fn place<S: Store>(store: &mut S, name: &[u8]) -> Result<u32, NeFault>
    ensures stays { IsLater (S.files store.old) (S.failures store.old) (S.files store.new) (S.failures store.new) }
    ensures device { IfErr result (RoseIf is_ne_device (S.failures store.old) (S.failures store.new)) }
    ensures exact { S.is_honest → Gives (λ ne. ne) (file_of (S.files store.old) name.now)
        (S.failures store.old) (S.failures store.new) result (place_at (file_of (S.files store.old) name.now)) }
{
    let mut mark = [0u8; 2];
    read_or(store, name, 0, &mut mark, NeFault::NotMz)?;
    if word(&mark, 0) != 0x5a4d {
        return Err(NeFault::NotMz);
    }
    let mut old = [0u8; 64];
    read_or(store, name, 0, &mut old, NeFault::Truncated)?;
    Ok(dword(&old, 0x3c))
}

/// The header's bytes.
#[tactic(auto, unfolding(crate::specs::Header::header_at))]
pub fn header<S: Store>(store: &mut S, name: &[u8], ne: u32) -> Result<[u8; 64], NeFault>
    ensures stays { IsLater (S.files store.old) (S.failures store.old) (S.files store.new) (S.failures store.new) }
    ensures device { IfErr result (RoseIf is_ne_device (S.failures store.old) (S.failures store.new)) }
    ensures exact { S.is_honest → Gives (λ header. header) (file_of (S.files store.old) name.now)
        (S.failures store.old) (S.failures store.new) result (header_at (file_of (S.files store.old) name.now) ne) }
{
    let mut mark = [0u8; 2];
    read_or(store, name, u64::from(ne), &mut mark, NeFault::NotNe)?;
    if word(&mark, 0) != 0x454e {
        return Err(NeFault::NotNe);
    }
    let mut header = [0u8; 64];
    read_or(store, name, u64::from(ne), &mut header, NeFault::Truncated)?;
    Ok(header)
}

/// The alignment shift.
pub fn shift(header: &[u8]) -> u16
    requires { length header.now ≡ 64 }
    ensures { result ≡ shift_of header.now }
{
    match word(header, 0x32) {
        0 => 9,
        shift => shift,
    }
}

/// The tests of the header's fields, in their order.
#[tactic(auto, unfolding(crate::specs::Header::fields_of))]
pub fn test_fields(header: &[u8]) -> Result<(), NeFault>
    requires { length header.now ≡ 64 }
    ensures exact { Tells (λ _. tt) result (fields_of header.now) }
    ensures few { OnOk result (segment_count header.now ≤ 253) }
    ensures shift { OnOk result (shift_of header.now ≤ 15) }
{
    let target = header[0x36];
    if target != 0 && target != 2 {
        return Err(NeFault::Target(target));
    }
    if word(header, 0x0c) & 0x2800 != 0 || word(header, 0x1c) > 253 {
        return Err(NeFault::Unsupported);
    }
    if shift(header) > 15 {
        return Err(NeFault::BadTable);
    }
    Ok(())
}
