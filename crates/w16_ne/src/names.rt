//! Names of entries with their ordinals, and how one is found.
ghost use Rattle.std.specs.Prelude.{◌≡◌, ◌<◌, ◌≤◌, ◌++◌, [], ◌∷◌, length, All, slice_get, Some, IfOk, IfErr, OnOk};
ghost use Rattle.std.specs.Str.{str_to_ascii_uppercase};
ghost use Rattle.w16_ne.specs.declared.fault.NeFault.TheVariants.{OutOfMemory};
ghost use Rattle.w16_ne.specs.Names.{Finds, ordinal_in};

use crate::fault::NeFault;
use crate::ordinals::{NameSeed, Ordinals};
use std::alloc::{AllocError, Allocator};
use std::hash::{DefaultHasher, Hasher};
use std::marker::Model;

/// Where a name's text lies among the texts, and its ordinal.
#[derive(Clone, Copy)]
pub struct Place {
    start: u32,
    len: u8,
    ordinal: u16,
}

/// Names with their ordinals, in the order of the tables. All texts lie in one buffer.
#[derive(Drop)]
pub struct Names<A: Allocator> {
    texts: Vec<u8, A>,
    places: Vec<Place, A>,
}

impl<A: Allocator> Model for Names<A> {
    ghost use Rattle.std.specs.Prelude.{◌≡◌, ◌<◌, ◌≤◌, ◌+◌, ◌^◌, length, map, All, List};
    ghost use Rattle.w16_ne.specs.Names.{Entry, at_place};

    ghost Value = { List Entry };

    ghost view = { λ s. map (at_place s.texts.items) s.places.items };

    ghost invariant = { λ s. All (λ p. p.start + p.len ≤ length s.texts.items) s.places.items × (length s.places.items < 2 ^ 32)
        × All (λ e. length e.0 ≤ 255) (map (at_place s.texts.items) s.places.items) };
}

impl<A: Allocator + Copy> Names<A> {
    /// No names, and room for so many with so many bytes of text.
    pub fn with_room(alloc: A, names: usize, texts: usize) -> Result<Names<A>, AllocError>
        ensures { IfOk result (λ names. names ≡ []) }
    {
        Ok(Names {
            texts: Vec::with_capacity(alloc, texts)?,
            places: Vec::with_capacity(alloc, names)?,
        })
    }
}

impl<A: Allocator> Names<A> {
    /// How many names there are.
    pub fn len(&self) -> usize
        ensures len { result ≡ length self.now }
        ensures few { result < 4294967296 }
    {
        self.places.len()
    }

    /// Adds a name. An error is that there was no memory, or that there are 4 GB of names.
    pub fn push(&mut self, text: &[u8], ordinal: u16) -> Result<(), NeFault>
        requires { length text.now ≤ 255 }
        ensures ok { OnOk result (self.new ≡ self.old ++ (text.now, ordinal) ∷ []) }
        ensures err { IfErr result (λ e. e ≡ OutOfMemory) }
    {
        let Ok(start) = u32::try_from(self.texts.len()) else {
            return Err(NeFault::OutOfMemory);
        };
        if self.places.len() >= u32::MAX as usize {
            return Err(NeFault::OutOfMemory);
        }
        self.places.reserve(1)?;
        self.texts.extend_from_slice(text)?;
        self.places.push_reserved(Place {
            start,
            len: text.len() as u8,
            ordinal,
        });
        Ok(())
    }

    /// The name of a number, from 0: its text and its ordinal.
    pub fn name(&self, i: usize) -> (&[u8], u16)
        requires { i < length self.now }
        ensures found { slice_get self.now i ≡ Some (result.0.now, result.1) }
        ensures short { length result.0.now ≤ 255 }
    {
        let place = self.places[i];
        (
            &self.texts[place.start as usize..][..usize::from(place.len)],
            place.ordinal,
        )
    }

    /// The ordinal of a name, 0 where there is none. Case doesn't count, and of equal names the first does.
    pub fn ordinal_of(&self, ordinals: &Ordinals<A>, name: &[u8]) -> u16
        requires { Finds ordinals.now self.now }
        ensures { result ≡ ordinal_in self.now name.now }
    {
        self.reveal_short();
        if name.len() > 255 {
            return 0;
        }
        let mut room = [0u8; 255];
        let key = &mut room[..name.len()];
        write_upper(name, key);
        ordinals.get(&*key).copied().unwrap_or(0)
    }

    /// Tells the prover that each name is short.
    fn reveal_short(&self)
        ensures { All (λ e. length e.0 ≤ 255) self.now }
    {
        let _ = &self.places;
    }

    /// The key of the names' hashes, from all their texts.
    pub fn seed(&self) -> NameSeed {
        let mut fed = DefaultHasher::new();
        fed.write(self.texts.as_slice());
        NameSeed { fed }
    }
}

/// Writes a text, upper-cased.
pub fn write_upper(text: &[u8], room: &mut [u8])
    requires { length text.now ≡ length room.old }
    ensures { room.new ≡ str_to_ascii_uppercase text.now }
{
    for (i, byte) in text.iter().enumerate() {
        room[i] = byte.to_ascii_uppercase();
    }
}
