//! Which modules a load finds: the module asked for, and breadth first those that it and the others refer to.
ghost use Rattle.std.specs.Prelude.{◌≡◌, ◌≤◌, ◌+◌, ◌<◌, ◌-◌, ◌++◌, ◌∷◌, [], ℕ, List, map, length, Ok, Err, IfOk, IfErr, OnOk, None};
ghost use Rattle.w16_store.specs.Later.{IsLater, RoseIf};
ghost use Rattle.w16_loader.specs.Devices.{is_fault_device};
ghost use Rattle.w16_loading.specs.Closure as closing;
ghost use Rattle.w16_loading.specs.{Closure.begun, Closure.dll, Refusals.by_reference};
ghost use Rattle.w16_loading.specs.Modules.{free_modules, handle_named};
ghost use Rattle.w16_format.specs.Ne.{ne_format};
ghost use Rattle.w16_loader.specs.Closing.{around_in, found_in, read_in, IsFault};
ghost use Rattle.w16_loader.specs.Following.{pending_in, closed_in, FindsFew, references_at, found_after, referent_after};
ghost use Rattle.w16_loader.specs.Following as following;
ghost use Rattle.w16_format.specs.Tables.{tables_in};
ghost use Rattle.w16_loader.specs.Answering.{AreAccepted, ClosesOf, IsAccepted, IsClosureBy, IsRefusedFile, IsRefusedName, LeadsBy, LeadsByAnswer, LeadsTo, RefusesBy, answers_of};
ghost use Rattle.w16_loader.specs.Reached.{reached_of, closed_of};

use crate::fault::LoadFault;
use crate::found::{Reading, Referent, examine_file, meant};
use crate::registry::Registry;
use crate::tagged::{Found, name_tag};
use std::alloc::{AllocError, Allocator, Global};
use w16_loading::{LoadRefusal, MOST_MODULES};
use w16_reloc::Scratch;
use w16_store::Store;

/// A reference of a new module.
#[derive(Clone, Copy, Debug, PartialEq, Eq)]
pub struct Bound {
    /// The place of the module that has it.
    pub place: usize,
    /// What it means.
    pub referent: Referent,
}

/// The new modules of a load, in the order in which they were found, and what the references that were followed mean, in the order in which they
/// were.
///
/// Which references are still to be followed isn't kept: the references of the modules come in the order of the modules, so the place of a module
/// and a number among its references tell it.
#[derive(Drop)]
pub struct Closure<A: Allocator = Global> {
    pub found: Vec<Found<A>, A>,
    pub bound: Vec<Bound, A>,
}

/// What a reference leads to.
#[derive(Drop)]
pub enum Followed<A: Allocator = Global> {
    /// A module that is there or was found already, or a built-in.
    Meant(Referent),
    /// A new module.
    New(Found<A>),
}

/// Why a load is refused, by why a file is that a reference leads to.
fn by_reference(refusal: LoadRefusal) -> LoadRefusal
    ensures { result ≡ by_reference refusal }
{
    match refusal {
        LoadRefusal::NoRoom => LoadRefusal::NoRoom,
        _ => LoadRefusal::BadReference,
    }
}

/// What a fault of a file that a reference leads to is to a load.
fn fault_of_reference(fault: LoadFault) -> LoadFault
    ensures fault { result ≡ following.fault_of_reference fault }
    ensures device { is_fault_device result ≡ is_fault_device fault }
{
    match fault {
        LoadFault::Refused(refusal) => LoadFault::Refused(by_reference(refusal)),
        LoadFault::Device => LoadFault::Device,
        LoadFault::OutOfMemory => LoadFault::OutOfMemory,
    }
}

/// The file that a reference is looked for in: its name with `.DLL` after it.
fn file_of_reference<A: Allocator + Clone>(alloc: &A, name: &[u8]) -> Result<Vec<u8, A>, AllocError>
    ensures { IfOk result (λ file. file.items ≡ dll name.now) }
{
    let mut file = Vec::from_slice(alloc.clone()?, name)?;
    file.extend_from_slice(b".DLL")?;
    Ok(file)
}

/// What a reference leads to whose name nothing has, by the file that it is looked for in.
fn follow_file<S: Store, A: Allocator + Copy>(
    alloc: A,
    registry: &Registry<A>,
    store: &mut S,
    found: &[Found<A>],
    scratch: &mut Scratch<A>,
    file: Vec<u8, A>,
) -> Result<Followed<A>, LoadFault>
    ensures stays { IsLater (S.files store.old) (S.failures store.old) (S.files store.new) (S.failures store.new) }
    ensures device { IfErr result (RoseIf is_fault_device (S.failures store.old) (S.failures store.new)) }
    ensures leads { IfOk result (LeadsByAnswer (answers_of S.is_honest (S.files store.old)) registry.now found.now file.items) }
    ensures refused { IfErr result (IsFault (IsRefusedFile (answers_of S.is_honest (S.files store.old)) registry.now found.now file.items) (S.failures store.old) (S.failures store.new)) }
{
    match examine_file(alloc, registry, store, found, scratch, file.as_slice()) {
        Err(fault) => Err(fault_of_reference(fault)),
        Ok(Reading::Meant(referent)) => Ok(Followed::Meant(referent)),
        Ok(Reading::Read(module)) => {
            let tag = name_tag(module.name());
            Ok(Followed::New(Found { file, module, tag }))
        }
    }
}

impl<A: Allocator + Copy> Closure<A> {
    /// The module asked for alone.
    fn begin(first: Found<A>) -> Result<Closure<A>, AllocError>
        ensures found { IfOk result (λ made. made.found.items ≡ first ∷ []) }
        ensures bound { IfOk result (λ made. made.bound.items ≡ []) }
    {
        let alloc = first.file.allocator().clone()?;
        let bound = Vec::new(first.file.allocator().clone()?);
        let mut found = Vec::new(alloc);
        found.push(first)?;
        Ok(Closure { found, bound })
    }

    /// What a reference of one of its modules leads to, by its name, in any case of letters: a module or built-in that is there, or a new module
    /// that it has; else what its file says, that of the name with `.DLL` after it.
    ///
    /// A file that is refused is a bad reference, but where no handle is left.
    pub fn follow<S: Store>(
        &self,
        alloc: A,
        registry: &Registry<A>,
        store: &mut S,
        scratch: &mut Scratch<A>,
        name: &[u8],
    ) -> Result<Followed<A>, LoadFault>
        ensures stays { IsLater (S.files store.old) (S.failures store.old) (S.files store.new) (S.failures store.new) }
        ensures device { IfErr result (RoseIf is_fault_device (S.failures store.old) (S.failures store.new)) }
        ensures leads { IfOk result (LeadsTo (answers_of S.is_honest (S.files store.old)) registry.now self.now.found.items name.now) }
        ensures refused { IfErr result (IsFault (IsRefusedName (answers_of S.is_honest (S.files store.old)) registry.now self.now.found.items name.now) (S.failures store.old) (S.failures store.new)) }
    {
        let found = self.found.as_slice();
        if let Some(referent) = meant(registry, found, name) {
            return Ok(Followed::Meant(referent));
        }
        match file_of_reference(self.found.allocator(), name) {
            Ok(file) => follow_file(alloc, registry, store, found, scratch, file),
            Err(_) => Err(LoadFault::OutOfMemory),
        }
    }

    /// A reference of the module at a place leads there.
    fn add_bound(&mut self, place: usize, followed: Followed<A>) -> Result<(), AllocError>
        ensures found { OnOk result (self.new.found.items ≡ found_after self.old.found.items followed) }
        ensures bound { OnOk result (self.new.bound.items ≡ self.old.bound.items ++ record { place = place; referent = referent_after (length self.old.found.items) followed } ∷ []) }
    {
        let referent = match followed {
            Followed::Meant(referent) => referent,
            Followed::New(new) => {
                let many = self.found.len();
                self.found.push(new)?;
                Referent::New(many)
            }
        };
        self.bound.push(Bound { place, referent })?;
        Ok(())
    }

    /// Follows a reference of the module at a place, by its number from 1, where all before it are followed.
    fn follow_reference<S: Store>(
        &mut self,
        alloc: A,
        registry: &Registry<A>,
        store: &mut S,
        scratch: &mut Scratch<A>,
        place: usize,
        number: usize,
    ) -> Result<(), LoadFault>
        requires first { 0 < number }
        requires last { number ≤ length (references_at self.old.found.items place) }
        ensures stays { IsLater (S.files store.old) (S.failures store.old) (S.files store.new) (S.failures store.new) }
        ensures device { IfErr result (RoseIf is_fault_device (S.failures store.old) (S.failures store.new)) }
        ensures same { OnOk result (references_at self.new.found.items place ≡ references_at self.old.found.items place) }
        ensures few { OnOk result (FindsFew registry.now self.old.found.items self.new.found.items) }
        ensures accepted { OnOk result (AreAccepted (answers_of S.is_honest (S.files store.old)) (map (found_in []) self.old.found.items) → AreAccepted (answers_of S.is_honest (S.files store.old)) (map (found_in []) self.new.found.items)) }
        ensures leads { OnOk result (LeadsBy (answers_of S.is_honest (S.files store.old)) registry.now self.new.found.items (reached_of place (number - 1) self.old) (reached_of place number self.new)) }
        ensures refused { IfErr result (IsFault (RefusesBy (answers_of S.is_honest (S.files store.old)) registry.now self.old.found.items (reached_of place (number - 1) self.old)) (S.failures store.old) (S.failures store.new)) }
    {
        let name = self.found[place].module.reference(number);
        match self.follow(alloc, registry, store, scratch, name) {
            Err(fault) => Err(fault),
            Ok(followed) => match self.add_bound(place, followed) {
                Ok(()) => Ok(()),
                Err(_) => Err(LoadFault::OutOfMemory),
            },
        }
    }

    /// How many references the module at a place has; 0 where there is none.
    fn reference_count(&self, place: usize) -> usize
        ensures { result ≡ length (references_at self.now.found.items place) }
    {
        match self.found.get(place) {
            None => 0,
            Some(found) => found.module.reference_count(),
        }
    }

    /// Follows the references of the module at a place, if there is one, where those of the modules before it are followed.
    fn follow_module<S: Store>(
        &mut self,
        alloc: A,
        registry: &Registry<A>,
        store: &mut S,
        scratch: &mut Scratch<A>,
        place: usize,
    ) -> Result<(), LoadFault>
        ensures stays { IsLater (S.files store.old) (S.failures store.old) (S.files store.new) (S.failures store.new) }
        ensures device { IfErr result (RoseIf is_fault_device (S.failures store.old) (S.failures store.new)) }
        ensures few { OnOk result (FindsFew registry.now self.old.found.items self.new.found.items) }
        ensures accepted { OnOk result (AreAccepted (answers_of S.is_honest (S.files store.old)) (map (found_in []) self.old.found.items) → AreAccepted (answers_of S.is_honest (S.files store.old)) (map (found_in []) self.new.found.items)) }
        ensures leads { OnOk result (LeadsBy (answers_of S.is_honest (S.files store.old)) registry.now self.new.found.items (reached_of place 0 self.old) (reached_of (place + 1) 0 self.new)) }
        ensures refused { IfErr result (IsFault (RefusesBy (answers_of S.is_honest (S.files store.old)) registry.now self.old.found.items (reached_of place 0 self.old)) (S.failures store.old) (S.failures store.new)) }
    {
        let count = self.reference_count(place);
        for done in 0..count {
            match self.follow_reference(alloc, registry, store, scratch, place, done + 1) {
                Err(fault) => return Err(fault),
                Ok(()) => {}
            }
        }
        Ok(())
    }

    /// Follows the references of all modules, also of those that it finds, where those of none are followed.
    fn follow_all<S: Store>(
        &mut self,
        alloc: A,
        registry: &Registry<A>,
        store: &mut S,
        scratch: &mut Scratch<A>,
    ) -> Result<(), LoadFault>
        requires { length self.old.found.items ≤ MOST_MODULES }
        ensures stays { IsLater (S.files store.old) (S.failures store.old) (S.files store.new) (S.failures store.new) }
        ensures device { IfErr result (RoseIf is_fault_device (S.failures store.old) (S.failures store.new)) }
        ensures few { OnOk result (FindsFew registry.now self.old.found.items self.new.found.items) }
        ensures accepted { OnOk result (AreAccepted (answers_of S.is_honest (S.files store.old)) (map (found_in []) self.old.found.items) → AreAccepted (answers_of S.is_honest (S.files store.old)) (map (found_in []) self.new.found.items)) }
        ensures leads { OnOk result (LeadsBy (answers_of S.is_honest (S.files store.old)) registry.now self.new.found.items (reached_of 0 0 self.old) (closed_of self.new)) }
        ensures refused { IfErr result (IsFault (RefusesBy (answers_of S.is_honest (S.files store.old)) registry.now self.old.found.items (reached_of 0 0 self.old)) (S.failures store.old) (S.failures store.new)) }
    {
        for place in 0..usize::from(MOST_MODULES) {
            match self.follow_module(alloc, registry, store, scratch, place) {
                Err(fault) => return Err(fault),
                Ok(()) => {}
            }
        }
        Ok(())
    }
}

/// Finds all modules of a load, of which the module asked for was read, and follows the references of each, breadth first. It takes memory alone:
/// neither handles nor anything of the machine.
///
/// The load is refused where a file that a reference leads to is, and where no handle is left for a module.
///
/// Where nothing has the name of the module asked for, and a handle is left for it, the modules are those of some closure, whatever the store answers:
/// no two of them have one name.
pub fn close<S: Store, A: Allocator + Copy>(
    alloc: A,
    registry: &Registry<A>,
    store: &mut S,
    scratch: &mut Scratch<A>,
    first: Found<A>,
) -> Result<Closure<A>, LoadFault>
    ensures stays { IsLater (S.files store.old) (S.failures store.old) (S.files store.new) (S.failures store.new) }
    ensures device { IfErr result (RoseIf is_fault_device (S.failures store.old) (S.failures store.new)) }
    ensures some { IfOk result (λ made. 0 < length made.found.items) }
    ensures few { 0 < free_modules registry.now → IfOk result (λ made. length made.found.items ≤ free_modules registry.now) }
    ensures accepted { IsAccepted (answers_of S.is_honest (S.files store.old)) first.file.items (tables_in first.module) → IfOk result (λ made. AreAccepted (answers_of S.is_honest (S.files store.old)) (map (found_in []) made.found.items)) }
    ensures closes { IfOk result (IsClosureBy (answers_of S.is_honest (S.files store.old)) registry.now first.file.items (tables_in first.module)) }
    ensures refused { IsAccepted (answers_of S.is_honest (S.files store.old)) first.file.items (tables_in first.module) → IfErr result
        (IsFault (λ refusal. ClosesOf (answers_of S.is_honest (S.files store.old)) registry.now first.file.items (tables_in first.module) (Err refusal)) (S.failures store.old) (S.failures store.new)) }
{
    let Ok(mut closure) = Closure::begin(first) else {
        return Err(LoadFault::OutOfMemory);
    };
    match closure.follow_all(alloc, registry, store, scratch) {
        Err(fault) => Err(fault),
        Ok(()) => Ok(closure),
    }
}
