//! What is known of the places of a unit, or of its first items, with what is asked of them.
ghost use Rattle.std.specs.Prelude.{◌≡◌, ◌≤◌, length, slice_get, option_map};
ghost use Rattle.tsa_place_model.specs.Layouts.{structure_at};
ghost use Rattle.tsa_place_model.specs.Parts.{place_limit};
ghost use Rattle.tsa_place_model.specs.Calls.{there, global_place, member_place, element_place, part_of, is_lock_kind, initial_at};
ghost use Rattle.tsa_place_model.specs.Calls.{declarator_of};

use crate::parts::Part;
use crate::structures::Structures;
use std::marker::Model;
use tsa_base::{Span, Value};
use tsa_place_model::{Holder, Placed};
use tsa_tree::kind::Kind;

/// The structs of a unit, its globals with the first place of each, and all places in order, of which there are no more than a unit may
/// have. Contracts see a layout.
#[derive(Drop)]
pub struct Layout<'t> {
    structs: &'t Structures,
    globals: &'t [Part],
    starts: &'t [u32],
    places: &'t [Placed],
}

impl<'t> Model for Layout<'t> {
    ghost use Rattle.std.specs.Prelude.{◌≤◌, length};
    ghost use Rattle.tsa_place_model.specs.Calls.{Layout};
    ghost use Rattle.tsa_place_model.specs.Parts.{place_limit};

    ghost Value = { Layout };

    ghost view = { λ l. record { structs = l.structs.now; globals = l.globals.now; starts = l.starts.now; places = l.places.now } };

    ghost invariant = { λ l. length l.places.now ≤ place_limit };
}

impl<'t> Layout<'t> {
    /// The structs, the globals with the first place of each, and all places.
    pub fn new(
        structs: &'t Structures,
        globals: &'t [Part],
        starts: &'t [u32],
        places: &'t [Placed],
    ) -> Layout<'t>
        requires { length places.now ≤ place_limit }
        ensures { result ≡ record { structs = structs.now; globals = globals.now; starts = starts.now; places = places.now } }
    {
        Layout {
            structs,
            globals,
            starts,
            places,
        }
    }

    /// A place of a number, where there is one.
    fn there(&self, place: u64) -> Option<u32>
        ensures { result ≡ there self.now place }
    {
        if place < self.places.len() as u64 {
            Some(place as u32)
        } else {
            None
        }
    }

    /// What stands at a place.
    pub fn placed(&self, place: u32) -> Option<Placed>
        ensures { result ≡ slice_get self.now.places place }
    {
        self.places.get(place as usize).copied()
    }

    /// The first place of a global by its number.
    pub fn global(&self, number: u32) -> Option<u32>
        ensures { result ≡ global_place self.now number }
    {
        self.starts.get(number as usize).copied()
    }

    /// The first place of a member, by its number, of the struct object at a place.
    pub fn member(&self, place: u32, number: u32) -> Option<u32>
        ensures { result ≡ member_place self.now place number }
    {
        match self.placed(place)?.kind {
            Kind::Structure(structure) => {
                let begin = self.structs.begin(structure, number)?;
                self.there(u64::from(place) + 1 + u64::from(begin))
            }
            _ => None,
        }
    }

    /// The element of an index of the array whose element 0 stands at a place.
    pub fn element(&self, place: u32, index: u32) -> Option<u32>
        ensures { result ≡ element_place self.now place index }
    {
        let first = self.placed(place)?;
        let Some(0) = first.index else {
            return None;
        };
        let count = self.part(first.holder)?.thing.length?;
        if index < count {
            let size = self.structs.kind_size(first.kind);
            self.there(u64::from(place) + u64::from(index) * u64::from(size))
        } else {
            None
        }
    }

    /// What declares a place: a global, or a member.
    pub fn part(&self, holder: Holder) -> Option<&'t Part>
        ensures { option_map (λ part. part.now) result ≡ part_of self.now holder }
    {
        match holder {
            Holder::Global(number) => self.globals.get(number as usize),
            Holder::Member { owner, number } => match self.placed(owner)?.kind {
                Kind::Structure(structure) => self.structs.member(structure, number),
                _ => None,
            },
        }
    }

    /// A member of a struct, by their numbers.
    pub fn member_part(&self, structure: u32, number: u32) -> Option<&'t Part>
        ensures { option_map (λ part. part.now) result ≡ slice_get (structure_at self.now.structs structure).members number }
    {
        self.structs.member(structure, number)
    }

    /// Whether a kind is a struct that is a lock.
    pub fn is_lock(&self, kind: Kind) -> bool
        ensures { result ≡ is_lock_kind self.now kind }
    {
        match kind {
            Kind::Structure(structure) => self.structs.is_lock(structure),
            _ => false,
        }
    }

    /// What the cell at a place holds at the start.
    pub fn initial(&self, place: u32) -> Option<Value>
        ensures { result ≡ initial_at self.now place }
    {
        Some(self.placed(place)?.initial)
    }

    /// Where the declarator of a place stands.
    pub fn declarator(&self, placed: Placed) -> Span
        ensures { result ≡ declarator_of self.now placed }
    {
        match self.part(placed.holder) {
            Some(part) => part.span,
            None => Span { from: 0, to: 0 },
        }
    }
}
