//! The globals of a unit one by one, with the places of each (C11 6.2.4p1).
ghost use Rattle.std.specs.Prelude.{◌≡◌, ◌+◌, ◌≤◌, ◌<◌, length, Some, slice_get, option_map, IfOk, OnOk};
ghost use Rattle.tsa_place.specs.GlobalAnswers.{Adds, with_kept, with_places};
ghost use Rattle.tsa_place.specs.Filling.{given};
ghost use Rattle.tsa_place_model.specs.Layouts.{size_of, thing_size};
ghost use Rattle.tsa_place_model.specs.Places.{places_of};
ghost use Rattle.tsa_place_model.specs.Standing.{IsOrdered, IsWithin};
ghost use Rattle.tsa_place_model.specs.Parts.{structure_in, behind_structure, place_limit};
ghost use Rattle.tsa_place_model.specs.GlobalPlaces.{no_places, given_by, values_in, with_structure};
ghost use Rattle.tsa_tree.specs.declarations.Shapes.{decl_shapes, init_shape};
ghost use Rattle.tsa_tree.specs.expressions.Shapes.{name_shape};

use crate::environment::Known;
use crate::filling::Origin;
use crate::refusal::PlaceRefusal;
use std::alloc::Global;
use std::marker::Model;
use tsa_base::{NoMemory, PLACE_LIMIT};
use tsa_place_layout::{Layout, Part, Structures, define_struct};
use tsa_place_model::{Holder, Placed};
use tsa_tree::decl::Init;
use tsa_tree::item::StructDef;
use tsa_tree::kind::ThingType;
use tsa_types_scope::Scope;

/// The structs of a unit's first items, its globals with the first place of each, and all places so far, of which there are no more than a
/// unit may have. Contracts see a layout.
pub struct Globals {
    structs: Structures,
    globals: Vec<Part>,
    starts: Vec<u32>,
    places: Vec<Placed>,
}

impl Drop for Globals {
    /// Lets its parts go, in one call for all who let one go.
    fn drop(self) {
        let Globals {
            structs: _,
            globals: _,
            starts: _,
            places: _,
        } = self;
    }
}

impl Model for Globals {
    ghost use Rattle.std.specs.Prelude.{◌≤◌, length};
    ghost use Rattle.tsa_place_model.specs.Calls.{Layout};
    ghost use Rattle.tsa_place_model.specs.Parts.{place_limit};

    ghost Value = { Layout };

    ghost view = { λ g. record { structs = g.structs; globals = g.globals.items; starts = g.starts.items; places = g.places.items } };

    ghost invariant = { λ g. length g.places.items ≤ place_limit };
}

impl Globals {
    /// No structs and no globals. No memory is taken.
    pub fn new(alloc: Global) -> Globals
        ensures { result ≡ no_places }
    {
        Globals {
            structs: Structures::new(alloc),
            globals: Vec::new(alloc),
            starts: Vec::new(alloc),
            places: Vec::new(alloc),
        }
    }

    /// The structs, the globals and the places, to be asked.
    pub fn layout(&self) -> Layout<'_>
        ensures { result ≡ self.now }
    {
        Layout::new(&self.structs, &self.globals, &self.starts, &self.places)
    }

    /// How many places there are.
    pub fn count(&self) -> u32
        ensures { result ≡ length self.now.places }
    {
        self.places.len() as u32
    }

    /// What stands at a place.
    pub fn at(&self, place: u32) -> Placed
        requires { place < length self.now.places }
        ensures { slice_get self.now.places place ≡ Some result }
    {
        self.places[place as usize]
    }

    /// Defines the next struct.
    pub fn define<'a>(&mut self, scope: &mut Scope<'a>, def: &StructDef<'a>) -> Result<(), NoMemory>
        requires { length scope.old.structs ≡ length self.old.structs }
        ensures places { OnOk result (self.new ≡ with_structure (structure_in scope.old (decl_shapes def.now.members.now)) self.old) }
        ensures scope { OnOk result (scope.new ≡ behind_structure scope.old (option_map name_shape def.now.alias)
            (decl_shapes def.now.members.now)) }
    {
        define_struct(&mut self.structs, scope, def)
    }

    /// What the next global has.
    fn next<'t>(&self, part: &Part, init: Option<&'t Init<'t>>) -> Result<Origin<'t>, NoMemory>
        ensures { IfOk result (λ from. given from
            ≡ given_by part.now (length self.now.globals) (option_map (λ x. init_shape x.now) init.entry)) }
    {
        let number = u32::try_from(self.globals.len()).ok().ok_or(NoMemory)?;
        Ok(Origin {
            holder: Holder::Global(number),
            is_const: part.thing.is_const,
            is_guarded: !part.guards.is_empty(),
            init,
        })
    }

    /// Puts the places of the next global.
    fn fill(
        &mut self,
        scope: &Scope<'_>,
        from: Origin<'_>,
        thing: ThingType,
    ) -> Result<(), NoMemory>
        requires within { IsWithin (length self.old.structs) thing }
        requires ordered { IsOrdered self.old.structs }
        requires fits { length self.old.places + thing_size (size_of self.old.structs) thing ≤ place_limit }
        ensures { OnOk result (self.new ≡ with_places
            (places_of self.old.structs (values_in scope.now self.old) (given from.entry) (length self.old.places) thing) self.old) }
    {
        let count = self.places.len();
        let mut places = Vec::new(scope.allocator());
        std::mem::swap(&mut places, &mut self.places);
        let known = Known {
            scope,
            structs: &self.structs,
            globals: &self.globals,
            starts: &self.starts,
            count,
        };
        self.places = known.with_thing(places, from, thing)?;
        Ok(())
    }

    /// Keeps a global with its first place.
    fn keep(&mut self, start: u32, part: Part) -> Result<(), NoMemory>
        ensures { OnOk result (self.new ≡ with_kept part start self.old) }
    {
        self.starts.push(start)?;
        self.globals.push(part)?;
        Ok(())
    }

    /// A further global with its places, where what its initialiser may name is known.
    pub fn add(
        &mut self,
        scope: &Scope<'_>,
        part: Part,
        init: Option<&Init<'_>>,
    ) -> Result<(), PlaceRefusal>
        requires { IsWithin (length self.old.structs) part.thing }
        ensures { Adds scope.now part (option_map (λ x. init_shape x.now) init.entry) self.old self.new result }
    {
        let start = self.count();
        if u64::from(start) + u64::from(self.structs.thing_size(part.thing)) > PLACE_LIMIT as u64 {
            return Err(PlaceRefusal::TooMany { span: part.span });
        }
        let from = self.next(&part, init)?;
        self.fill(scope, from, part.thing)?;
        self.keep(start, part)?;
        Ok(())
    }
}
