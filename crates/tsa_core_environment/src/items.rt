//! The items of a typed unit, each of which is known behind itself (C11 6.9).
ghost use Rattle.std.specs.Prelude.{◌≡◌, ◌+◌, None, Some, option_map, OnOk};
ghost use Rattle.tsa_place_model.specs.Items.{known_global};
ghost use Rattle.tsa_tree.specs.declarations.Shapes.{decl_shape, type_shape, enumerator_shapes};
ghost use Rattle.tsa_tree.specs.expressions.Shapes.{name_shape};
ghost use Rattle.tsa_tree.specs.types.DeclaredTypes.{thing_type, declared_premises};
ghost use Rattle.tsa_tree.specs.types.Enums.{enum_premises, behind_enum};
ghost use Rattle.tsa_tree.specs.types.Globals.{global_premises, with_global};
ghost use Rattle.tsa_tree.specs.types.Premises.{first};
ghost use Rattle.tsa_tree.specs.types.Scopes.{is_taken, with_alias, with_globals};
ghost use Rattle.tsa_tree.specs.types.Units.{item_premises, behind_item};
ghost use Rattle.tsa_tree.specs.units.Shapes.{item_shape};

use crate::heads::know_head;
use crate::members::know_struct;
use tsa_base::NoMemory;
use tsa_place::declared_thing;
use tsa_tree::decl::Decl;
use tsa_tree::item::{AliasDef, EnumDef, Item};
use tsa_tree::kind::Declaring;
use tsa_tree::meaning::{Entry, Meaning};
use tsa_types_scope::Scope;

/// A name of a type that is typed, which is known behind its item.
pub fn know_alias<'a>(scope: &mut Scope<'a>, def: &AliasDef<'a>) -> Result<(), NoMemory>
    requires typed { first (declared_premises scope.old Declaring.Type (is_taken def.now.name.text.now scope.old) def.now.span
        (type_shape def.now.ctype)) ≡ None }
    ensures { OnOk result (scope.new ≡ with_alias (Some (name_shape def.now.name)) (thing_type scope.old (type_shape def.now.ctype))
        scope.old) }
{
    tsa_place::know_alias(scope, def)
}

/// An enum that is typed, behind which its enumerators and its name of a type are known.
pub fn know_enum<'a>(scope: &mut Scope<'a>, def: &EnumDef<'a>) -> Result<(), NoMemory>
    requires typed { first (enum_premises scope.old (option_map name_shape def.now.tag) (option_map name_shape def.now.alias)
        (enumerator_shapes def.now.values.now) def.now.span) ≡ None }
    ensures { OnOk result (scope.new ≡ behind_enum scope.old (option_map name_shape def.now.alias) (enumerator_shapes def.now.values.now)) }
{
    tsa_place::know_enum(scope, def)
}

/// A global, which is known where its name is free.
fn declare_global<'a>(scope: &mut Scope<'a>, decl: &Decl<'a>) -> Result<(), NoMemory>
    ensures { OnOk result (scope.new ≡ known_global scope.old (decl_shape decl.now)) }
{
    let entry = Entry {
        meaning: Meaning::Global(scope.next_global()),
        thing: declared_thing(scope, &decl.ctype)?,
    };
    scope.declare(decl.name.text, entry)?;
    Ok(())
}

/// A global that is typed, which is known in its own attributes, length and initialiser. It is counted behind them.
pub fn begin_global<'a>(scope: &mut Scope<'a>, decl: &Decl<'a>) -> Result<(), NoMemory>
    requires typed { first (global_premises scope.old (decl_shape decl.now)) ≡ None }
    ensures { OnOk result (scope.new ≡ with_global scope.old (decl_shape decl.now)) }
{
    declare_global(scope, decl)
}

/// A global that is typed, which is known behind its item.
fn know_global<'a>(scope: &mut Scope<'a>, decl: &Decl<'a>) -> Result<(), NoMemory>
    requires typed { first (global_premises scope.old (decl_shape decl.now)) ≡ None }
    ensures { OnOk result (scope.new ≡ with_globals (scope.old.globals + 1) (with_global scope.old (decl_shape decl.now))) }
{
    begin_global(scope, decl)?;
    scope.count_global()
}

/// An item that is typed, behind which what it declares is known.
#[tactic(auto, using(crate::proofs::KnownHeads::behind_function))]
pub fn know_item<'a>(scope: &mut Scope<'a>, item: &Item<'a>) -> Result<(), NoMemory>
    requires typed { first (item_premises scope.old (item_shape item.now)) ≡ None }
    ensures { OnOk result (scope.new ≡ behind_item scope.old (item_shape item.now)) }
{
    match item {
        Item::Structure(def) => know_struct(scope, def),
        Item::Alias(def) => know_alias(scope, def),
        Item::Enumeration(def) => know_enum(scope, def),
        Item::Global(decl) => know_global(scope, decl),
        Item::Function(head) => know_head(scope, head),
    }
}
