//! Tags of names, and the new modules of a load, each with its name's.
ghost use Rattle.std.specs.Prelude.{◌≡◌, ◌==◌, ◌&&◌};
ghost use Rattle.w16_store.specs.Names as names;
ghost use Rattle.w16_loader.specs.Tags as tags;

use std::alloc::{Allocator, Global};
use w16_ne::Module;
use w16_store::is_named;

/// The tag of a name: names that are one in any case of letters have one tag.
pub fn name_tag(name: &[u8]) -> u32
    ensures { result ≡ tags.name_tag name.now }
{
    let mut tag: u32 = 0;
    for byte in name {
        let longer = u64::from(tag) * 31 + u64::from(byte.to_ascii_uppercase());
        tag = (longer % 4_294_967_296) as u32;
    }
    tag
}

/// A new module of a load: the name of its file, and what that says.
#[derive(Drop)]
pub struct Found<A: Allocator = Global> {
    pub file: Vec<u8, A>,
    pub module: Module<A>,
    pub tag: u32,
    ghost tagged: { tag ≡ tags.name_tag module.name },
}

impl<A: Allocator> Found<A> {
    /// Whether its module's name has this tag, and is this name.
    pub(crate) fn is_tagged(&self, tag: u32, name: &[u8]) -> bool
        ensures { result ≡ ((self.now.tag == tag) && names.is_named self.now.module.name name.now) }
    {
        self.tag == tag && is_named(self.module.name(), name)
    }
}
