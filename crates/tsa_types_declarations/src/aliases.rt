//! Names of types (C11 6.7.8).
ghost use Rattle.std.specs.Prelude.{◌≡◌, ◌++◌, OnOk};
ghost use Rattle.tsa_types_expressions.specs.Judgements.{Judges};
ghost use Rattle.tsa_tree.specs.declarations.Shapes.{type_shape};
ghost use Rattle.tsa_tree.specs.expressions.Shapes.{name_shape};
ghost use Rattle.tsa_tree.specs.types.Premises.{first};
ghost use Rattle.tsa_tree.specs.types.Scopes.{a_type_name as spec_a_type_name};
ghost use Rattle.tsa_tree.specs.types.Units.{item_premises, behind_item};
ghost use Rattle.tsa_tree.specs.units.Syntax.{alias_item};
ghost use Rattle.tsa_types_row.specs.ItemRows.{row_in_item};

use crate::declarations::judge_type;
use tsa_tree::item::AliasDef;
use tsa_tree::kind::{Declaring, ThingType};
use tsa_tree::meaning::{Entry, Meaning};
use tsa_types_expressions::{TypeRefusal, View, judged};
use tsa_types_row::Row;
use tsa_types_scope::Scope;

/// What a name of a type is known as.
pub fn a_type_name(thing: ThingType) -> Entry
    ensures { result ≡ spec_a_type_name thing }
{
    Entry {
        meaning: Meaning::TypeName,
        thing,
    }
}

/// A name of a type, which is known after its item.
pub fn declare_alias<'a>(
    scope: &mut Scope<'a>,
    row: &mut Row,
    alias: &AliasDef<'a>,
) -> Result<(), TypeRefusal>
    ensures judged { Judges (first (item_premises scope.old
        (alias_item (name_shape alias.now.name) (type_shape alias.now.ctype) alias.now.span))) result }
    ensures behind { OnOk result (scope.new
        ≡ behind_item scope.old (alias_item (name_shape alias.now.name) (type_shape alias.now.ctype) alias.now.span)) }
    ensures nodes { OnOk result (row.new ≡ row.old
        ++ row_in_item scope.old (alias_item (name_shape alias.now.name) (type_shape alias.now.ctype) alias.now.span)) }
{
    let view = View { scope, function: 0 };
    let typing = judge_type(view, row, Declaring::Type, &alias.ctype)?;
    let free = scope.declare(alias.name.text, a_type_name(typing.written.thing))?;
    judged(typing.failure(!free, alias.span))
}
