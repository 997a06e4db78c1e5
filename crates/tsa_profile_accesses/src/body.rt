//! Names, members and elements as a body sees them, each with its guards (C11 6.5).
ghost use Rattle.std.specs.Prelude.{◌≡◌, true, ◌++◌, length, Some, None, slice_get, option_map, option_and_then, IfOk, OnOk};
ghost use Rattle.tsa_core.specs.Meanings.{of_name};
ghost use Rattle.tsa_core.specs.Uses.{guards_owned, member_guards, name_guards as spec_name_guards};
ghost use Rattle.tsa_place_model.specs.Calls.{part_guards};
ghost use Rattle.tsa_place_model.specs.Layouts.{structure_at};
ghost use Rattle.tsa_place_model.specs.Ways.{from};
ghost use Rattle.tsa_place_model.specs.declared.path.Root.TheVariants as root;
ghost use Rattle.tsa_tree.specs.types.Lookups.{members_at, numbered};
ghost use Rattle.tsa_tree.specs.expressions.Shapes.{shape};
ghost use Rattle.tsa_tree.specs.types.Scopes.{known_in};
ghost use Rattle.tsa_tree.specs.types.Operands.{element_type as spec_element_type};
ghost use Rattle.tsa_place_model.specs.LockPaths.{stable_in, name_way, element_step};
ghost use Rattle.tsa_profile_accesses.specs.Members.{found_guards};
ghost use Rattle.tsa_profile_accesses.specs.ExpressionViews.{a_value, member_of, thing_of};

use crate::{NamedLocks, Seen, Thing, add_owned, copies, member_thing, named_thing, path_of};
use tsa_base::NoMemory;
use tsa_place_layout::{Layout, Sight};
use tsa_place_model::{Holder, Path, Root};
use tsa_tree::expr::Expr;
use tsa_tree::kind::ThingType;
use tsa_tree::meaning::{Entry, Meaning};
use tsa_types_expressions::owner;
use tsa_types_operators::element_type;

/// What has a member: the path to it, where it has one, and its struct, where it is one.
#[derive(Clone, Copy)]
struct Owner<'p> {
    path: Option<&'p Path>,
    structure: Option<u32>,
}

/// A member of a struct, by their numbers.
#[derive(Clone, Copy)]
struct Member {
    structure: u32,
    number: usize,
}

/// What an expression sees: what lock expressions see there, the layout of the unit, the locks that the functions name which are declared
/// so far, by their numbers, and whether a thread works it out: an attribute is none that does.
#[derive(Clone, Copy)]
pub struct Body<'w, 'a> {
    pub sight: Sight<'w, 'a>,
    pub layout: &'w Layout<'w>,
    pub attributes: &'w [NamedLocks],
    pub is_run: bool,
}

impl<'w, 'a> Body<'w, 'a> {
    /// Adds the guards that are declared with a member of a struct.
    fn add_member(
        self,
        guards: &mut Vec<Option<Path>>,
        owner: Option<&Path>,
        member: Member,
    ) -> Result<(), NoMemory>
        ensures { OnOk result (guards.new.items ≡ guards.old.items ++ guards_owned (option_map (λ path. path.now) owner.entry)
            (part_guards (slice_get (structure_at self.entry.layout.now.structs member.structure).members member.number))) }
    {
        let number = u32::try_from(member.number).ok().ok_or(NoMemory)?;
        match self.layout.member_part(member.structure, number) {
            Some(part) => add_owned(guards, self.sight.scope.allocator(), owner, &part.guards),
            None => Ok(()),
        }
    }

    /// The guards that are declared with a global.
    fn global_guards(self, number: u32) -> Result<Vec<Option<Path>>, NoMemory>
        ensures { IfOk result (λ guards. guards.items ≡ part_guards (slice_get self.entry.layout.now.globals number)) }
    {
        match self.layout.part(Holder::Global(number)) {
            Some(part) => copies(self.sight.scope.allocator(), &part.guards),
            None => Ok(Vec::new(self.sight.scope.allocator())),
        }
    }

    /// The guards that are declared with a member of the struct object that has the guard that is written.
    fn owned_guards(self, name: &[u8]) -> Result<Vec<Option<Path>>, NoMemory>
        ensures { IfOk result (λ guards. guards.items ≡ member_guards self.entry.layout.now (Some (from root.Owner))
            (length self.entry.sight.scope.now.structs) (numbered self.entry.sight.scope.now.owned name.now 0)) }
    {
        let mut guards = Vec::new(self.sight.scope.allocator());
        if let Some((number, _)) = self.sight.scope.find_owned(name) {
            let owner = Path::new(self.sight.scope.allocator(), Root::Owner);
            let structure = self.sight.scope.next_struct()?;
            self.add_member(&mut guards, Some(&owner), Member { structure, number })?;
        }
        Ok(guards)
    }

    /// The guards that are declared with what a name stands for.
    fn name_guards(self, name: &[u8], entry: Option<Entry>) -> Result<Vec<Option<Path>>, NoMemory>
        ensures { IfOk result (λ guards. guards.items ≡ spec_name_guards self.entry.layout.now self.entry.sight.scope.now name.now entry) }
    {
        let Some(entry) = entry else {
            return Ok(Vec::new(self.sight.scope.allocator()));
        };
        match entry.meaning {
            Meaning::Global(number) => self.global_guards(number),
            Meaning::Owned => self.owned_guards(name),
            _ => Ok(Vec::new(self.sight.scope.allocator())),
        }
    }

    /// A member by its name.
    fn find_member(self, structure: Option<u32>, name: &[u8]) -> Option<(usize, ThingType)>
        ensures { result ≡ option_and_then (λ struct. numbered (members_at self.entry.sight.scope.now struct) name.now 0) structure }
    {
        self.sight.scope.find_member(structure?, name)
    }

    /// Adds the guards that are declared with a member that was looked up.
    fn add_guards(
        self,
        guards: &mut Vec<Option<Path>>,
        owner: Owner<'_>,
        member: Option<(usize, ThingType)>,
    ) -> Result<(), NoMemory>
        ensures { OnOk result (guards.new.items ≡ guards.old.items
            ++ found_guards self.entry.layout.now (option_map (λ path. path.now) owner.entry.path) owner.entry.structure member) }
    {
        let Some(structure) = owner.structure else {
            return Ok(());
        };
        let Some((number, _)) = member else {
            return Ok(());
        };
        self.add_member(guards, owner.path, Member { structure, number })
    }

    /// What a name is, as a place.
    pub fn name(self, name: &[u8]) -> Result<Seen, NoMemory>
        ensures { IfOk result (λ seen. seen
            ≡ record {
              thing = thing_of (of_name (known_in self.entry.sight.scope.now name.now));
              led = option_and_then
                  (name_way (stable_in self.entry.sight.stable.now) self.entry.sight.scope.now name.now)
                  (known_in self.entry.sight.scope.now name.now);
              guards = spec_name_guards self.entry.layout.now self.entry.sight.scope.now
                  name.now (known_in self.entry.sight.scope.now name.now);
            }) }
    {
        let entry = self.sight.scope.known(name);
        Ok(Seen {
            thing: named_thing(entry),
            led: self.sight.known_name(name, entry)?,
            guards: self.name_guards(name, entry)?,
        })
    }

    /// What a name is, where it isn't asked where that leads.
    pub fn name_value(self, name: &[u8]) -> Result<Seen, NoMemory>
        ensures { IfOk result (λ seen. seen
            ≡ record {
              thing = thing_of (of_name (known_in self.entry.sight.scope.now name.now));
              led = None;
              guards = spec_name_guards
                  self.entry.layout.now self.entry.sight.scope.now name.now (known_in self.entry.sight.scope.now name.now);
            }) }
    {
        let entry = self.sight.scope.known(name);
        Ok(Seen {
            thing: named_thing(entry),
            led: None,
            guards: self.name_guards(name, entry)?,
        })
    }

    /// A member of what was seen, as a place: its guards come after those on the way to it.
    #[tactic(auto, using(crate::proofs::Members::found_are))]
    pub fn field(self, base: Seen, name: &[u8], arrow: bool) -> Result<Seen, NoMemory>
        ensures { IfOk result (λ seen. seen ≡ member_of self.entry.layout.now self.entry.sight.scope.now arrow name.now base) }
    {
        let expression = base.thing.expression;
        let structure = owner(arrow, expression);
        let member = self.find_member(structure, name);
        let led = base.led;
        let mut guards = base.guards;
        let owner = Owner {
            path: path_of(&led),
            structure,
        };
        self.add_guards(&mut guards, owner, member)?;
        Ok(Seen {
            thing: member_thing(arrow, expression, member),
            led: self.sight.member_of(led, name)?,
            guards,
        })
    }

    /// An element of what was seen, as a place.
    pub fn element(self, base: Seen, index: &Expr<'_>) -> Result<Seen, NoMemory>
        ensures { IfOk result (λ seen. seen
            ≡ record {
              thing = record { expression = spec_element_type base.thing.expression; is_place = true };
              led = option_and_then
                  (element_step (stable_in self.entry.sight.stable.now) self.entry.sight.scope.now (shape index.now)) base.led;
              guards =
                  base.guards;
            }) }
    {
        Ok(Seen {
            thing: Thing {
                expression: element_type(base.thing.expression),
                is_place: true,
            },
            led: self.sight.element_of(base.led, index)?,
            guards: base.guards,
        })
    }

    /// A value, which leads nowhere.
    pub fn plain(self, thing: Thing) -> Seen
        ensures { result ≡ a_value thing }
    {
        Seen::value(self.sight.scope.allocator(), thing)
    }
}
