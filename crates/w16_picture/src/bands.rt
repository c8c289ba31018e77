//! What became of the objects between two strips.
ghost use Rattle.std.specs.Prelude.{◌≡◌, ℕ, map, filter, nat_eq, IfOk};
ghost use Rattle.std.specs.List.{filter_map};
ghost use Rattle.std.specs.Prelude.{List, All};
ghost use Rattle.w16_picture.specs.declared.layout.Rect.{Rect};
ghost use Rattle.w16_picture.specs.Bands.{IsPlaces, partner, band_to, is_alone, JoinsObject};

use crate::layout::Rect;
use std::alloc::{AllocError, Global};
use std::collections::HashMap;

/// An object's rectangles on two strips, from the earlier one to the later one.
#[derive(Clone, Copy, Debug, PartialEq, Eq)]
pub struct Band {
    pub from: Rect,
    pub to: Rect,
}

/// The rectangles of a strip's objects by their handles, so that an object is found without a search.
type Places = HashMap<u32, Rect>;

/// The first rectangle of each handle.
fn places(alloc: Global, rects: &[Rect]) -> Result<Places, AllocError>
    ensures { IfOk result (λ places. IsPlaces places rects.now) }
{
    let mut places = HashMap::new(alloc);
    for i in (0..rects.len()).rev() {
        let rect = rects[i];
        if let Some(owner) = rect.item.owner {
            places.insert(owner.name, rect)?;
        }
    }
    Ok(places)
}

/// The rectangle among those of another strip that shows the same object.
fn partner_in(places: &Places, rect: &Rect) -> Option<Rect>
    ensures { (rects : List Rect) → IsPlaces places.now rects → result ≡ partner rects rect.now }
{
    match rect.item.owner {
        Some(owner) => places.get(&owner.name).copied(),
        None => None,
    }
}

/// The band that leads to a rectangle.
fn band_in(places: &Places, to: &Rect) -> Option<Band>
    ensures { (rects : List Rect) → IsPlaces places.now rects → result ≡ band_to rects to.now }
{
    match partner_in(places, to) {
        Some(from) => Some(Band { from, to: *to }),
        None => None,
    }
}

/// Whether a rectangle shows an object that the other strip doesn't show.
fn is_missing(places: &Places, rect: &Rect) -> bool
    ensures { (rects : List Rect) → IsPlaces places.now rects → result ≡ is_alone rects rect.now }
{
    rect.item.owner.is_some() && partner_in(places, rect).is_none()
}

/// A band for each object of the later strip that the earlier one shows as well, in the later one's order.
pub fn bands_between(
    alloc: Global,
    before: &[Rect],
    after: &[Rect],
) -> Result<Vec<Band>, AllocError>
    ensures value { IfOk result (λ bands. bands.items ≡ filter_map (band_to before.now) after.now) }
    ensures joins { IfOk result (λ bands. All (JoinsObject before.now after.now) bands.items) }
{
    let places = places(alloc, before)?;
    let mut bands = Vec::new(alloc);
    for to in after {
        if let Some(band) = band_in(&places, to) {
            bands.push(band)?;
        }
    }
    Ok(bands)
}

/// The rectangles of objects that the other strip doesn't show, in order.
pub fn alone(alloc: Global, others: &[Rect], rects: &[Rect]) -> Result<Vec<Rect>, AllocError>
    ensures { IfOk result (λ alone. alone.items ≡ filter (is_alone others.now) rects.now) }
{
    let places = places(alloc, others)?;
    let mut alone = Vec::new(alloc);
    for rect in rects {
        if is_missing(&places, rect) {
            alone.push(*rect)?;
        }
    }
    Ok(alone)
}
