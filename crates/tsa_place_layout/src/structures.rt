//! Structs with their members, and how many places things take (C11 6.2.5p20, 6.7.2.1). Counts stop at one more than a unit may have.
ghost use Rattle.std.specs.Prelude.{◌≡◌, MatchOption, ◌∷◌, [], length, slice_get, option_map, IfOk, OnOk, OnErr};
ghost use Rattle.tsa_place_model.specs.Standing.{AllBelow, IsOrdered};
ghost use Rattle.tsa_place_model.specs.Layouts.{capped, size_of, kind_size as spec_kind_size, thing_size as spec_thing_size, members_size};
ghost use Rattle.tsa_place_model.specs.Layouts.{structure_at, no_members, offset};
ghost use Rattle.tsa_place_layout.specs.Tables.{begins_from, IsKept};

use crate::parts::Part;
use std::alloc::Global;
use std::marker::Model;
use tsa_base::{NoMemory, PLACE_LIMIT};
use tsa_tree::kind::{Kind, ThingType};

/// A count that stops.
fn few(count: u64) -> u32
    ensures { result ≡ capped count }
{
    count.min(PLACE_LIMIT as u64 + 1) as u32
}

/// A struct: whether it is a lock, its members in order, how far behind the first place of them each begins, and how many places an object
/// of it takes.
pub struct Defined {
    pub(crate) is_lock: bool,
    pub(crate) members: Vec<Part>,
    pub(crate) begins: Vec<u32>,
    pub(crate) size: u32,
}

impl Drop for Defined {
    /// Lets its parts go, in one call for all who let one go.
    fn drop(self) {
        let Defined {
            is_lock: _,
            members: _,
            begins: _,
            size: _,
        } = self;
    }
}

impl Defined {
    /// A member by its number.
    fn member(&self, number: u32) -> Option<&Part>
        ensures { option_map (λ part. part.now) result ≡ slice_get self.now.members.items number }
    {
        self.members.get(number as usize)
    }

    /// Where a member begins.
    fn begin(&self, number: u32) -> Option<u32>
        ensures { result ≡ slice_get self.now.begins.items number }
    {
        self.begins.get(number as usize).copied()
    }
}

/// Where the members of a struct begin, and how many places they take together.
#[derive(Drop)]
struct Begins {
    places: Vec<u32>,
    end: u32,
}

/// Structs in order of definition. Contracts see the latest first.
#[derive(Drop)]
pub struct Structures {
    list: Vec<Defined>,
}

impl Model for Structures {
    ghost use Rattle.std.specs.Prelude.{[]};
    ghost use Rattle.tsa_place_model.specs.Layouts.{Structures};
    ghost use Rattle.tsa_place_layout.specs.Tables.{latest, IsSized};

    ghost Value = { Structures };

    ghost view = { λ structs. latest structs.list.items [] };

    ghost invariant = { λ structs. IsSized structs.list.items };
}

impl Structures {
    /// No structs. No memory is taken.
    pub fn new(alloc: Global) -> Structures
        ensures { result ≡ [] }
    {
        Structures {
            list: Vec::new(alloc),
        }
    }

    /// A struct by its number, where it is defined.
    fn defined(&self, structure: u32) -> Option<&Defined>
        ensures found { MatchOption result (structure_at self.now structure ≡ no_members × size_of self.now structure ≡ 1)
            (λ defined. IsKept self.now structure defined.now) }
        ensures ordered { IsOrdered self.now }
    {
        match self.list.get(structure as usize) {
            Some(defined) => Some(defined),
            None => None,
        }
    }

    /// How many places an object of a kind takes.
    pub fn kind_size(&self, kind: Kind) -> u32
        ensures { result ≡ capped (spec_kind_size (size_of self.now) kind) }
    {
        match kind {
            Kind::Structure(number) => match self.defined(number) {
                Some(defined) => defined.size,
                None => 1,
            },
            _ => 1,
        }
    }

    /// How many places a thing takes.
    #[tactic(auto, using(crate::proofs::Tables::sizes))]
    pub fn thing_size(&self, thing: ThingType) -> u32
        ensures size { result ≡ capped (spec_thing_size (size_of self.now) thing) }
        ensures ordered { IsOrdered self.now }
    {
        let _ = &self.list;
        let one = self.kind_size(thing.kind);
        match thing.length {
            Some(count) => few(u64::from(count) * u64::from(one)),
            None => one,
        }
    }

    /// Where members begin behind each other.
    fn begins(&self, alloc: Global, members: &[Part]) -> Result<Begins, NoMemory>
        ensures places { IfOk result (λ begins. begins.places.items ≡ begins_from (size_of self.now) 0 members.now) }
        ensures end { IfOk result (λ begins. begins.end ≡ capped (members_size (size_of self.now) members.now)) }
    {
        let mut places = Vec::new(alloc);
        let mut end = 0;
        'each: for member in members {
            places.push(end)?;
            end = few(u64::from(end) + u64::from(self.thing_size(member.thing)));
        }
        Ok(Begins { places, end })
    }

    /// Defines the next struct, whose members are of structs that are defined.
    pub fn add(&mut self, alloc: Global, is_lock: bool, members: Vec<Part>) -> Result<(), NoMemory>
        requires { AllBelow (length self.old) members.items }
        ensures added { OnOk result (self.new ≡ record { is_lock = is_lock; members = members.items } ∷ self.old) }
        ensures refused { OnErr result (self.new ≡ self.old) }
    {
        let begins = self.begins(alloc, &members)?;
        let size = few(1 + u64::from(begins.end));
        self.list.push(Defined {
            is_lock,
            members,
            begins: begins.places,
            size,
        })?;
        Ok(())
    }

    /// Whether a struct by its number is a lock; one that isn't defined is none.
    pub fn is_lock(&self, structure: u32) -> bool
        ensures { result ≡ (structure_at self.now structure).is_lock }
    {
        match self.defined(structure) {
            Some(defined) => defined.is_lock,
            None => false,
        }
    }

    /// A member of a struct by their numbers.
    #[tactic(auto, using(crate::proofs::Begins::members))]
    pub fn member(&self, structure: u32, number: u32) -> Option<&Part>
        ensures member { option_map (λ part. part.now) result ≡ slice_get (structure_at self.now structure).members number }
        ensures ordered { IsOrdered self.now }
    {
        match self.defined(structure) {
            Some(defined) => defined.member(number),
            None => None,
        }
    }

    /// How far behind the first place of a struct's members the one of a number begins.
    #[tactic(auto, using(crate::proofs::Begins::members))]
    pub fn begin(&self, structure: u32, number: u32) -> Option<u32>
        ensures { result ≡ option_map (λ part. capped (offset (size_of self.now) (structure_at self.now structure).members number))
            (slice_get (structure_at self.now structure).members number) }
    {
        match self.defined(structure) {
            Some(defined) => defined.begin(number),
            None => None,
        }
    }
}
