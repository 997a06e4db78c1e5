//! Structs as items (C11 6.7.2.1): each is known behind its item, by its number and its name of a type.
ghost use Rattle.std.specs.Prelude.{◌≡◌, ◌∷◌, length, option_map, OnOk};
ghost use Rattle.tsa_place_model.specs.Parts.{structure_in, behind_structure};
ghost use Rattle.tsa_tree.specs.declarations.Shapes.{decl_shapes};
ghost use Rattle.tsa_tree.specs.expressions.Shapes.{name_shape};

use crate::members::next_members;
use crate::structures::Structures;
use tsa_base::NoMemory;
use tsa_place_paths::single;
use tsa_tree::item::StructDef;
use tsa_tree::kind::Kind;
use tsa_tree::meaning::{Entry, Meaning};
use tsa_types_scope::{Names, Scope};

/// Defines the next struct, with its members and their guards.
#[tactic(auto, using(tsa_place_model::proofs::Below::parts_below))]
pub fn define_struct<'a>(
    structs: &mut Structures,
    scope: &mut Scope<'a>,
    def: &StructDef<'a>,
) -> Result<(), NoMemory>
    requires { length scope.old.structs ≡ length structs.old }
    ensures structs { OnOk result (structs.new ≡ structure_in scope.old (decl_shapes def.now.members.now) ∷ structs.old) }
    ensures scope { OnOk result (scope.new ≡ behind_structure scope.old (option_map name_shape def.now.alias)
        (decl_shapes def.now.members.now)) }
{
    let number = scope.next_struct()?;
    let is_lock = scope.is_lock(Some(number));
    let mut members = Names::new(scope.allocator());
    let parts = next_members(scope, &mut members, def.members)?;
    structs.add(scope.allocator(), is_lock, parts)?;
    scope.add_struct(members)?;
    let entry = Entry {
        meaning: Meaning::TypeName,
        thing: single(Kind::Structure(number), false),
    };
    scope.declare_named(def.alias, entry)?;
    Ok(())
}
