//! Enumerators (C11 6.7.2.2): each is known after its own value.
ghost use Rattle.std.specs.Prelude.{◌≡◌, ◌++◌, ◌||◌, pos, option_map, IfOk, OnOk};
ghost use Rattle.tsa_types_expressions.specs.Judgements.{Judges, forget};
ghost use Rattle.tsa_tree.specs.declarations.Shapes.{enumerator_shape, enumerator_shapes};
ghost use Rattle.tsa_tree.specs.expressions.Shapes.{name_shape};
ghost use Rattle.tsa_tree.specs.types.Enums.{int_value as spec_int_value, as_int, next_after, enumerator_premises, behind_enumerators};
ghost use Rattle.tsa_tree.specs.types.Enums.{value_verdict, enumerator_value, enumerator_entry as spec_entry, other_enum};
ghost use Rattle.tsa_tree.specs.types.Enums.{is_enumerator as spec_is_enumerator, enum_premises, behind_enum};
ghost use Rattle.tsa_tree.specs.types.Premises.{first};
ghost use Rattle.tsa_tree.specs.types.Scopes.{tag_in, with_name, is_taken, is_named_taken};
ghost use Rattle.tsa_types_row.specs.BodyRows.{declared_row, aside_given};
ghost use Rattle.tsa_types_row.specs.ItemRows.{row_in_enumerators};
ghost use Rattle.tsa_types_declarations.specs.Enumerators.{worth_by, own_premises};

use crate::aliases::a_type_name;
use tsa_base::{NoMemory, Span};
use tsa_tree::expr::Name;
use tsa_tree::item::{EnumDef, Enumerator};
use tsa_tree::kind::Kind;
use tsa_tree::meaning::{Entry, Meaning, Symbol, Tag};
use tsa_tree::number::Number;
use tsa_tree::premise::{Failure, TypeCode};
use tsa_types_expressions::{Found, Mark, TypeRefusal, View, at, bare_node, refused};
use tsa_types_operators::single;
use tsa_types_row::{Op, Row};
use tsa_types_scope::Scope;

/// A constant as an `int`, where it fits.
pub fn int_value(value: Option<Number>) -> Option<i32>
    ensures { result ≡ spec_int_value value }
{
    match value? {
        Number::Int(z) => Some(z),
        Number::Unsigned(n) => {
            if n < 0x8000_0000 {
                Some(n as i32)
            } else {
                None
            }
        }
    }
}

/// What comes after the last value, or first, where that is an `int`.
pub fn count_on(last: Option<i32>) -> Option<i32>
    ensures { result ≡ as_int (next_after last) }
{
    match last {
        None => Some(0),
        Some(value) => value.checked_add(1),
    }
}

/// What an enumerator is known as.
pub fn enumerator_entry(value: i32) -> Entry
    ensures { result ≡ spec_entry value }
{
    Entry {
        meaning: Meaning::Constant(value),
        thing: single(Kind::Int, false),
    }
}

/// What a value at a span is worth as an enumerator, by what it was found to be.
fn value_worth(span: Span, found: Result<Found, Failure>) -> Result<i32, Failure>
    ensures { result ≡ worth_by span found }
{
    int_value(found?.value()).ok_or(at(TypeCode::TY9, span))
}

/// What an enumerator is worth after the last value, or what is wrong with its own. Its value is put into the row.
#[tactic(auto, using(crate::proofs::EnumLaws::worth, tsa_types_expressions::proofs::RowLaws::notes))]
fn worth(
    view: View<'_, '_>,
    row: &mut Row,
    enumerator: &Enumerator<'_>,
    last: Option<i32>,
) -> Result<Result<i32, Failure>, NoMemory>
    ensures worth { IfOk result (λ worth. worth ≡ value_verdict view.entry.scope.now (enumerator_shape enumerator.now) (next_after last)) }
    ensures nodes { OnOk result (row.new ≡ row.old ++ aside_given view.entry.scope.now view.entry.function
        (enumerator_shape enumerator.now).value) }
{
    match &enumerator.value {
        Some(value) => {
            let found = view.aside(row, value)?;
            Ok(value_worth(value.span, found))
        }
        None => Ok(count_on(last).ok_or(at(TypeCode::TY9, enumerator.name.span))),
    }
}

/// Puts the name of an enumerator that is worth this, and then the nodes of its value.
fn put_enumerator(row: &mut Row, span: Span, worth: i32, inside: &mut Row) -> Result<(), NoMemory>
    ensures { OnOk result (row.new ≡ row.old ++ (declared_row (Symbol.Constant worth) span ++ inside.old)) }
{
    let name = Mark::new(Op::Declared(Symbol::Constant(worth)), span);
    row.leaf(bare_node(name))?;
    row.append(inside)
}

/// An enumerator after the last value, which is known after its own: what it is worth.
fn declare_enumerator<'a>(
    scope: &mut Scope<'a>,
    row: &mut Row,
    enumerator: &Enumerator<'a>,
    last: Option<i32>,
) -> Result<i32, TypeRefusal>
    ensures judged { Judges (first (own_premises scope.old (next_after last) (enumerator_shape enumerator.now))) (forget result) }
    ensures worth { IfOk result (λ z. z ≡ enumerator_value scope.old (enumerator_shape enumerator.now) (next_after last)) }
    ensures behind { IfOk result (λ z. scope.new ≡ with_name enumerator.now.name.text.now (spec_entry z) scope.old) }
    ensures nodes { IfOk result (λ z. row.new ≡ row.old
        ++ (declared_row (Symbol.Constant z) enumerator.now.name.span ++ aside_given scope.old 0
        (enumerator_shape enumerator.now).value)) }
{
    let again = at(TypeCode::TY2, enumerator.name.span);
    let view = View { scope, function: 0 };
    let mut inside = Row::new(scope.allocator());
    match worth(view, &mut inside, enumerator, last)? {
        Ok(value) => {
            if !scope.declare(enumerator.name.text, enumerator_entry(value))? {
                return Err(refused(again));
            }
            put_enumerator(row, enumerator.name.span, value, &mut inside)?;
            Ok(value)
        }
        Err(failure) => {
            if scope.is_taken(enumerator.name.text) {
                return Err(refused(again));
            }
            Err(refused(failure))
        }
    }
}

/// The enumerators of an item, in order; each without a value counts on from the one before it.
fn declare_enumerators<'a>(
    scope: &mut Scope<'a>,
    row: &mut Row,
    values: &[Enumerator<'a>],
) -> Result<(), TypeRefusal>
    ensures judged { Judges (first (enumerator_premises scope.old (pos 0) (enumerator_shapes values.now))) result }
    ensures behind { OnOk result (scope.new ≡ behind_enumerators scope.old (pos 0) (enumerator_shapes values.now)) }
    ensures nodes { OnOk result (row.new ≡ row.old ++ row_in_enumerators scope.old (pos 0) (enumerator_shapes values.now)) }
{
    let mut last = None;
    'each: for enumerator in values {
        last = Some(declare_enumerator(scope, row, enumerator, last)?);
    }
    Ok(())
}

/// Whether an earlier item has a tag, where the item of an enum stands at a place.
fn is_other_enum(scope: &Scope<'_>, place: u32, tag: Option<Name<'_>>) -> bool
    ensures { result ≡ other_enum place (tag_in scope.now (option_map name_shape tag.entry)) }
{
    match scope.tag(tag) {
        None => false,
        Some(Tag::Structure(_)) => true,
        Some(Tag::Enumeration(own)) => own != place,
    }
}

/// Whether a name is one of some enumerators.
fn is_enumerator(name: &[u8], values: &[Enumerator<'_>]) -> bool
    ensures { result ≡ spec_is_enumerator name.now (enumerator_shapes values.now) }
{
    'each: for value in values {
        if name == value.name.text {
            return true;
        }
    }
    false
}

/// Whether a name is taken after enumerators; one that is left out isn't.
#[tactic(auto, using(crate::proofs::EnumLaws::taken_behind))]
fn is_taken_after(scope: &Scope<'_>, values: &[Enumerator<'_>], name: Option<Name<'_>>) -> bool
    ensures { result ≡ is_named_taken (option_map name_shape name.entry)
        (behind_enumerators scope.now (pos 0) (enumerator_shapes values.now)) }
{
    match name {
        Some(name) => scope.is_taken(name.text) || is_enumerator(name.text, values),
        None => false,
    }
}

/// Whether the tag of an enum, or its name of a type after the enumerators, is declared by something else.
fn is_declared_elsewhere(scope: &Scope<'_>, def: &EnumDef<'_>) -> bool
    ensures { result ≡ (other_enum def.now.span.from (tag_in scope.now (option_map name_shape def.now.tag))
        || is_named_taken (option_map name_shape def.now.alias)
        (behind_enumerators scope.now (pos 0) (enumerator_shapes def.now.values.now))) }
{
    is_other_enum(scope, def.span.from, def.tag) || is_taken_after(scope, def.values, def.alias)
}

/// An enum, whose enumerators and name of a type are known after its item.
pub fn declare_enum<'a>(
    scope: &mut Scope<'a>,
    row: &mut Row,
    def: &EnumDef<'a>,
) -> Result<(), TypeRefusal>
    ensures judged { Judges (first (enum_premises scope.old (option_map name_shape def.now.tag) (option_map name_shape def.now.alias)
        (enumerator_shapes def.now.values.now) def.now.span)) result }
    ensures behind { OnOk result (scope.new ≡ behind_enum scope.old (option_map name_shape def.now.alias)
        (enumerator_shapes def.now.values.now)) }
    ensures nodes { OnOk result (row.new ≡ row.old ++ row_in_enumerators scope.old (pos 0) (enumerator_shapes def.now.values.now)) }
{
    if is_declared_elsewhere(scope, def) {
        return Err(refused(at(TypeCode::TY2, def.span)));
    }
    declare_enumerators(scope, row, def.values)?;
    scope.declare_named(def.alias, a_type_name(single(Kind::Int, false)))?;
    Ok(())
}
