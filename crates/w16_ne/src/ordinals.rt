//! The ordinals of names: a map whose hashes are keyed by the file's names.
ghost use Rattle.std.specs.Prelude.{◌≡◌, ℕ, List, ◌++◌, [], ◌∷◌, IfOk, OnOk, IfErr};
ghost use Rattle.w16_ne.specs.declared.fault.NeFault.TheVariants.{OutOfMemory};
ghost use Rattle.w16_ne.specs.Names.{Entry, Finds};
ghost use Rattle.std.specs.Str.{str_to_ascii_uppercase};

use crate::fault::NeFault;
use crate::names::{Names, write_upper};
use indexmap::IndexMap;
use std::alloc::Allocator;
use std::hash::{BuildHasher, DefaultHasher};

/// The ordinals of names by their texts, upper-cased, in the order of the tables.
pub type Ordinals<A> = IndexMap<Vec<u8, A>, u16, NameSeed, A>;

/// What each hash of a name goes on from: a SipHash that was fed all texts of the file's names. So who chooses the names chooses the key with them,
/// and names that were made to collide under a known key don't collide here.
#[derive(Clone, Copy)]
pub struct NameSeed {
    pub fed: DefaultHasher,
}

impl BuildHasher for NameSeed {
    type Hasher = DefaultHasher;

    ghost build_hasher = { λ seed. seed.fed };

    fn build_hasher(&self) -> DefaultHasher {
        self.fed
    }
}

/// The ordinals of names: of equal ones the first's.
pub fn ordinals_of<A: Allocator + Copy>(alloc: A, names: &Names<A>) -> Result<Ordinals<A>, NeFault>
    ensures ok { IfOk result (λ ordinals. Finds ordinals names.now) }
    ensures err { IfErr result (λ e. e ≡ OutOfMemory) }
{
    let mut ordinals = IndexMap::with_capacity_and_hasher(alloc, names.len(), names.seed())?;
    for i in 0..names.len() {
        let (text, ordinal) = names.name(i);
        let mut room = [0u8; 255];
        let key = &mut room[..text.len()];
        write_upper(text, key);
        add(alloc, &mut ordinals, &*key, ordinal)?;
    }
    Ok(ordinals)
}

/// Adds a name by its key, its upper-cased text, unless an equal one is there.
fn add<A: Allocator + Copy>(
    alloc: A,
    ordinals: &mut Ordinals<A>,
    text: &[u8],
    ordinal: u16,
) -> Result<(), NeFault>
    ensures ok { OnOk result ((names : List Entry) (name : List ℕ) → text.now ≡ str_to_ascii_uppercase name → Finds ordinals.old names → Finds ordinals.new (names ++ (name, ordinal) ∷ [])) }
    ensures err { IfErr result (λ e. e ≡ OutOfMemory) }
{
    if ordinals.contains_key(text) {
        return Ok(());
    }
    let key = Vec::from_slice(alloc, text)?;
    ordinals.insert(key, ordinal)?;
    Ok(())
}
