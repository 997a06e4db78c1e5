//! Names of types, enumerators and globals, each known behind its declaration where its name isn't taken (C11 6.7.2.2, 6.7.8, 6.9.2).
ghost use Rattle.std.specs.Prelude.{◌≡◌, pos, option_map, IfOk, OnOk};
ghost use Rattle.tsa_place_model.specs.Parts.{unless_taken};
ghost use Rattle.tsa_place_model.specs.Items.{worth as spec_worth, worth_written, enumerators_behind, behind_enumeration, known_global};
ghost use Rattle.tsa_place_model.specs.Items.{global_part, behind_data};
ghost use Rattle.tsa_tree.specs.declarations.Shapes.{decl_shape, enumerator_shape, enumerator_shapes, type_shape};
ghost use Rattle.tsa_tree.specs.expressions.Shapes.{name_shape, shape};
ghost use Rattle.tsa_tree.specs.types.Enums.{next_after, enumerator_entry as spec_entry};
ghost use Rattle.tsa_tree.specs.units.Syntax.{alias_item};

use tsa_base::NoMemory;
use tsa_place_layout::{Part, Sight, declared_thing, part_of, whole};
use tsa_tree::decl::Decl;
use tsa_tree::expr::Expr;
use tsa_tree::item::{AliasDef, EnumDef, Enumerator};
use tsa_tree::kind::Kind;
use tsa_tree::meaning::{Entry, Meaning};
use tsa_types_declarations::{a_type_name, count_on, enumerator_entry, int_value};
use tsa_types_operators::single;
use tsa_types_scope::Scope;

/// The value of an enumerator after the last one, where it has one.
fn written(
    scope: &Scope<'_>,
    value: Option<&Expr<'_>>,
    last: Option<i32>,
) -> Result<Option<i32>, NoMemory>
    ensures { IfOk result (λ value_is. value_is ≡ worth_written scope.now (option_map (λ x. shape x.now) value.entry) (next_after last)) }
{
    match value {
        Some(value) => {
            let sight = Sight { scope, stable: &[] };
            Ok(int_value(sight.value_at(value)?))
        }
        None => Ok(count_on(last)),
    }
}

/// What an enumerator is worth after the last one; 0 where its value is none, which types refuse.
fn worth(scope: &Scope<'_>, enumerator: &Enumerator<'_>, last: Option<i32>) -> Result<i32, NoMemory>
    ensures { IfOk result (λ z. z ≡ spec_worth scope.now (enumerator_shape enumerator.now) (next_after last)) }
{
    let value = written(scope, enumerator.value.as_ref(), last)?;
    Ok(value.unwrap_or(0))
}

/// An enumerator after the last one, which is known behind its own value: what it is worth.
fn know_enumerator<'a>(
    scope: &mut Scope<'a>,
    enumerator: &Enumerator<'a>,
    last: Option<i32>,
) -> Result<i32, NoMemory>
    ensures worth { IfOk result (λ z. z ≡ spec_worth scope.old (enumerator_shape enumerator.now) (next_after last)) }
    ensures known { IfOk result (λ z. scope.new ≡ unless_taken enumerator.now.name.text.now (spec_entry z) scope.old) }
{
    let value = worth(scope, enumerator, last)?;
    scope.declare(enumerator.name.text, enumerator_entry(value))?;
    Ok(value)
}

/// The enumerators of an item, in order.
fn know_enumerators<'a>(scope: &mut Scope<'a>, values: &[Enumerator<'a>]) -> Result<(), NoMemory>
    ensures { OnOk result (scope.new ≡ enumerators_behind scope.old (pos 0) (enumerator_shapes values.now)) }
{
    let mut last = None;
    'each: for enumerator in values {
        last = Some(know_enumerator(scope, enumerator, last)?);
    }
    Ok(())
}

/// An enum, behind which its enumerators and its name of a type are known.
pub fn know_enum<'a>(scope: &mut Scope<'a>, def: &EnumDef<'a>) -> Result<(), NoMemory>
    ensures { OnOk result (scope.new ≡ behind_enumeration scope.old (option_map name_shape def.now.alias)
        (enumerator_shapes def.now.values.now)) }
{
    know_enumerators(scope, def.values)?;
    scope.declare_named(def.alias, a_type_name(single(Kind::Int, false)))?;
    Ok(())
}

/// A name of a type, which is known behind its item.
pub fn know_alias<'a>(scope: &mut Scope<'a>, alias: &AliasDef<'a>) -> Result<(), NoMemory>
    ensures { OnOk result (scope.new ≡ behind_data scope.old
        (alias_item (name_shape alias.now.name) (type_shape alias.now.ctype) alias.now.span)) }
{
    let thing = declared_thing(scope, &alias.ctype)?;
    scope.declare(alias.name.text, a_type_name(thing))?;
    Ok(())
}

/// A global with its guards, which is known in them.
pub fn know_global<'a>(scope: &mut Scope<'a>, decl: &Decl<'a>) -> Result<Part, NoMemory>
    ensures part { IfOk result (λ part. part ≡ global_part scope.old (decl_shape decl.now)) }
    ensures known { OnOk result (scope.new ≡ known_global scope.old (decl_shape decl.now)) }
{
    let thing = declared_thing(scope, &decl.ctype)?;
    let kept = whole(scope, thing);
    let entry = Entry {
        meaning: Meaning::Global(scope.next_global()),
        thing,
    };
    scope.declare(decl.name.text, entry)?;
    part_of(scope, kept, decl)
}
