//! When two names are one, and which is the first.
ghost use Rattle.std.specs.Prelude.{◌≡◌};
ghost use Rattle.w16_store.specs.Names.{is_named, name_cmp};

use std::cmp::Ordering;

/// Whether a name is another after ASCII upper-casing of both. Bytes that are no letters of ASCII stay as they are.
pub fn is_named(name: &[u8], other: &[u8]) -> bool
    ensures { result ≡ is_named name.now other.now }
{
    name.eq_ignore_ascii_case(other)
}

/// Which of two names is the first after ASCII upper-casing of both, by bytes.
pub fn compare_names(name: &[u8], other: &[u8]) -> Ordering
    ensures { result ≡ name_cmp name.now other.now }
{
    for i in 0..name.len().min(other.len()) {
        let order = name[i]
            .to_ascii_uppercase()
            .cmp(&other[i].to_ascii_uppercase());
        if order != Ordering::Equal {
            return order;
        }
    }
    name.len().cmp(&other.len())
}
