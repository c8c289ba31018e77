//! Names that are found by places in their order.
ghost use Rattle.std.specs.Prelude.{◌≡◌, map, length, option_map, IfOk};
ghost use Rattle.std.specs.List.{find};
ghost use Rattle.std.specs.Ordering.{is_lt};
ghost use Rattle.std.specs.String.{string_bytes};
ghost use Rattle.w16_store.specs.Names.{is_named, name_cmp};
ghost use Rattle.w16_store.specs.Places.{AreInOrder, AreWhole, IsSplitAt, name_at, place_cmp};

use crate::name::{compare_names, is_named};
use std::alloc::{AllocError, Global};
use std::cmp::Ordering;

/// All places of the names, in the order of the names after ASCII upper-casing. Of equal names the first is the first.
pub fn places_of(alloc: Global, names: &[String]) -> Result<Vec<usize>, AllocError>
    ensures rising { IfOk result (λ places. AreInOrder (map string_bytes names.now) places.items) }
    ensures whole { IfOk result (λ places. AreWhole (map string_bytes names.now) places.items) }
{
    let mut places = Vec::with_capacity(alloc, names.len())?;
    for place in 0..names.len() {
        places.push(place)?;
    }
    places.sort_unstable_by(|a, b| compare_places(names, *a, *b));
    Ok(places)
}

/// The first of the names that is this one, by the places in the names' order.
pub fn find_name<'a>(names: &'a [String], places: &[usize], name: &[u8]) -> Option<&'a str>
    requires rising { AreInOrder (map string_bytes names.now) places.now }
    requires whole { AreWhole (map string_bytes names.now) places.now }
    requires all { length places.now ≡ length names.now }
    ensures { option_map (λ found. found.now) result ≡ find (λ n. is_named n name.now) (map string_bytes names.now) }
{
    let at = first_from(names, places, name);
    let place = places.get(at).copied().unwrap_or(names.len());
    let found = names.get(place)?;
    if is_named(found.as_bytes(), name) {
        Some(found.as_str())
    } else {
        None
    }
}

/// How many of the places have a lesser name.
fn first_from(names: &[String], places: &[usize], name: &[u8]) -> usize
    requires { AreInOrder (map string_bytes names.now) places.now }
    ensures { IsSplitAt (map string_bytes names.now) places.now name.now result }
{
    places.partition_point(|place| is_before(names, *place, name))
}

fn compare_places(names: &[String], a: usize, b: usize) -> Ordering
    ensures { result ≡ place_cmp (map string_bytes names.now) a b }
{
    compare_names(bytes_at(names, a), bytes_at(names, b)).then(a.cmp(&b))
}

fn is_before(names: &[String], place: usize, name: &[u8]) -> bool
    ensures { result ≡ is_lt (name_cmp (name_at (map string_bytes names.now) place) name.now) }
{
    compare_names(bytes_at(names, place), name) == Ordering::Less
}

fn bytes_at(names: &[String], place: usize) -> &[u8]
    ensures { result.now ≡ name_at (map string_bytes names.now) place }
{
    match names.get(place) {
        Some(name) => name.as_bytes(),
        None => &[],
    }
}
