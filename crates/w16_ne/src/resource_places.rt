//! Resources by their place among those of all types.
ghost use Rattle.std.specs.Prelude.{◌≡◌, ℕ, ◌<◌, ◌≤◌, ◌+◌, ◌^◌, ◌&&◌, [], All, IfSome, length, option_map, position};
ghost use Rattle.w16_ne.specs.Resources.{label_of, entry_of, is_label, resource_count};
ghost use Rattle.w16_ne.specs.Rows.{HasLabel, label_in, entry_in, grouped, kind_at, total};
ghost use Rattle.w16_ne.specs.Modules.{listed_resources, resource_at};

use crate::flags::ResourceFlags;
use crate::resource_rows::{Group, Row, Rows};
use crate::segment_table::unit;
use crate::text_window::text_in;
use std::alloc::Allocator;
use std::marker::Model;
use w16_store::is_named;

/// A type or an id of resources.
#[derive(Clone, Copy, Debug)]
pub enum ResourceName<'a> {
    /// At most 32,767.
    Number(u16),
    /// At most 255 bytes.
    Text(&'a [u8]),
}

/// A resource.
#[derive(Clone, Copy, Debug)]
pub struct Resource<'a> {
    pub id: ResourceName<'a>,
    /// The offset of its bytes in the file.
    pub place: u32,
    /// How many bytes it has, whole units. The last may end past the file's end by less than a unit.
    pub len: u32,
    pub flags: ResourceFlags,
}

/// The resources of a module, by type. Types and ids may share texts, so each is kept as a word.
#[derive(Drop)]
pub struct ResourceTable<A: Allocator> {
    /// The bytes of the file from the table on, as far as a type or an id leads.
    pub texts: Vec<u8, A>,
    pub shift: u16,
    pub rows: Rows<A>,
}

impl<A: Allocator> Model for ResourceTable<A> {
    ghost use Rattle.std.specs.Prelude.{◌≤◌, List, length};
    ghost use Rattle.w16_ne.specs.Resources.{Typed};
    ghost use Rattle.w16_ne.specs.Rows.{AreRows, grouped};

    ghost Value = { List Typed };

    ghost view = { λ s. grouped s.texts.items s.shift s.rows.groups.items s.rows.rows.items };

    ghost invariant = { λ s. (s.shift ≤ 15) × AreRows s.texts.items s.rows × (length s.rows.rows.items ≤ 65535) };
}

impl<A: Allocator + Copy> ResourceTable<A> {
    /// No resources.
    pub fn none(alloc: A) -> ResourceTable<A>
        ensures { result ≡ [] }
    {
        ResourceTable {
            texts: Vec::new(alloc),
            shift: 0,
            rows: Rows {
                groups: Vec::new(alloc),
                rows: Vec::new(alloc),
            },
        }
    }
}

impl<A: Allocator> ResourceTable<A> {
    /// How many there are, at most 65,535.
    pub fn len(&self) -> usize
        ensures count { result ≡ resource_count self.now }
        ensures few { result ≤ 65535 }
    {
        self.rows.rows.len()
    }

    /// The resource of a place, from 1, with its type; none where there are fewer.
    pub fn resource(&self, place: usize) -> Option<(ResourceName<'_>, Resource<'_>)>
        ensures { option_map (λ found. (label_of found.0, entry_of found.1)) result ≡ resource_at self.now place }
    {
        let i = place.checked_sub(1)?;
        let row = *self.rows.rows.get(i)?;
        let texts = self.texts.as_slice();
        let kind = label(texts, kind_at(self.rows.groups.as_slice(), i));
        Some((kind, entry(texts, self.shift, row)))
    }

    /// The place, from 1, of the first resource of a type and an id; none where there is none.
    pub fn place_of(&self, kind: ResourceName<'_>, id: ResourceName<'_>) -> Option<u16>
        ensures { result ≡ option_map (λ i. i + 1) (position (λ r. is_label r.1.id (label_of id.entry) && is_label r.0 (label_of kind.entry)) (listed_resources self.now)) }
    {
        let texts = self.texts.as_slice();
        let groups = self.rows.groups.as_slice();
        let i = place_among(texts, groups, self.rows.rows.as_slice(), kind, id)?;
        Some((i + 1) as u16)
    }
}

/// Whether a name is another: the same number, or in any case of letters the same text.
fn is_label(name: ResourceName<'_>, other: ResourceName<'_>) -> bool
    ensures { result ≡ is_label (label_of name.entry) (label_of other.entry) }
{
    match (name, other) {
        (ResourceName::Number(a), ResourceName::Number(b)) => a == b,
        (ResourceName::Text(a), ResourceName::Text(b)) => is_named(a, b),
        _ => false,
    }
}

/// The place, from 0, of the first row of an id in a block, whose type word has to name a type.
fn place_in(
    texts: &[u8],
    group: Group,
    rows: &[Row],
    kind: ResourceName<'_>,
    id: ResourceName<'_>,
) -> Option<usize>
    requires kind { HasLabel texts.now group.kind }
    requires ids { All (λ r. HasLabel texts.now r.id) rows.now }
    ensures { result ≡ position (λ r. is_label (label_in texts.now r.id) (label_of id.entry) && is_label (label_in texts.now group.kind) (label_of kind.entry)) rows.now }
{
    if !is_label(label(texts, group.kind), kind) {
        return None;
    }
    rows.iter()
        .position(|row| is_label(label(texts, row.id), id))
}

/// The place, from 0, of the first row of an id in the blocks of a type.
fn place_among(
    texts: &[u8],
    groups: &[Group],
    rows: &[Row],
    kind: ResourceName<'_>,
    id: ResourceName<'_>,
) -> Option<usize>
    requires whole { total groups.now ≡ length rows.now }
    requires kinds { All (λ g. HasLabel texts.now g.kind) groups.now }
    requires ids { All (λ r. HasLabel texts.now r.id) rows.now }
    ensures found { (shift : ℕ) → result ≡ position (λ r. is_label r.1.id (label_of id.entry) && is_label r.0 (label_of kind.entry)) (listed_resources (grouped texts.now shift groups.now rows.now)) }
    ensures inside { IfSome result (λ i. i < length rows.now) }
{
    let mut start = 0;
    for group in groups {
        let end = start + usize::from(group.count);
        if let Some(i) = place_in(texts, *group, &rows[start..end], kind, id) {
            return Some(start + i);
        }
        start = end;
    }
    None
}

/// What a type word or an id word names.
fn label(texts: &[u8], word: u16) -> ResourceName<'_>
    requires { HasLabel texts.now word }
    ensures { label_of result ≡ label_in texts.now word }
{
    if word >= 0x8000 {
        ResourceName::Number(word - 0x8000)
    } else {
        ResourceName::Text(text_in(texts, word))
    }
}

/// The resource of a row.
fn entry(texts: &[u8], shift: u16, row: Row) -> Resource<'_>
    requires shift { shift ≤ 15 }
    requires id { HasLabel texts.now row.id }
    ensures { entry_of result ≡ entry_in texts.now shift row }
{
    Resource {
        id: label(texts, row.id),
        place: u32::from(row.place) * unit(shift),
        len: u32::from(row.len) * unit(shift),
        flags: ResourceFlags(row.flags),
    }
}

/// The type word of the block that a row belongs to.
fn kind_at(groups: &[Group], place: usize) -> u16
    ensures { result ≡ kind_at groups.now place }
{
    let mut left = place;
    for group in groups {
        let count = usize::from(group.count);
        if left < count {
            return group.kind;
        }
        left -= count;
    }
    0
}
