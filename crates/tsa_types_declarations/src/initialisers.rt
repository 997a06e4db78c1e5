//! Initialisers of globals (C11 6.7.9p4): constants that fit the shape of what they initialise.
ghost use Rattle.std.specs.Prelude.{◌≡◌, ◌++◌, Some, None, if◌then◌else◌, IfOk, OnOk};
ghost use Rattle.tsa_tree.specs.declarations.Shapes.{init_shape, init_shapes};
ghost use Rattle.tsa_tree.specs.types.Initialisers.{parts_of, is_misfit as spec_is_misfit, or_no_parts, initialiser_premises};
ghost use Rattle.tsa_tree.specs.types.Initialisers.{list_premises};
ghost use Rattle.tsa_tree.specs.types.Premises.{first, or_else};
ghost use Rattle.tsa_types_row.specs.BodyRows.{aside_init, aside_items};
ghost use Rattle.tsa_types_expressions.specs.Verdicts.{at as spec_at};
ghost use Rattle.tsa_types_declarations.specs.Cells.{is_fixed_pointer as spec_fixed_pointer, is_fixed_for as spec_fixed_for, cell_by};

use crate::parts::{part_at, parts_count};
use tsa_base::{NoMemory, Span};
use tsa_tree::decl::Init;
use tsa_tree::kind::{Kind, ThingType};
use tsa_tree::premise::{Failure, TypeCode};
use tsa_types_expressions::{Constant, Found, View, at, first_of};
use tsa_types_operators::{goes_to, is_integer_kind};
use tsa_types_row::Row;
use tsa_types_scope::Scope;

/// Whether it is null, the number 0, or the address of a place of a global before one of a number.
fn is_fixed_pointer(own: u32, found: Found) -> bool
    ensures { result ≡ spec_fixed_pointer own found }
{
    match found.constant {
        Constant::Null => true,
        Constant::Address(number) => number < own,
        _ => found.thing.is_zero,
    }
}

/// Whether it is a constant for a cell of a kind, in the initialiser of the global of a number.
fn is_fixed_for(own: u32, kind: Kind, found: Found) -> bool
    ensures { result ≡ spec_fixed_for own kind found }
{
    if is_integer_kind(kind) {
        found.value().is_some()
    } else {
        is_fixed_pointer(own, found)
    }
}

/// What is wrong with the initialiser of a cell at a span, by what it was found to be; beside what has no type, with its names alone.
fn cell_failure(
    own: u32,
    thing: Option<ThingType>,
    span: Span,
    found: Result<Found, Failure>,
) -> Option<Failure>
    ensures { result ≡ cell_by own thing span found }
{
    match (found, thing) {
        (Err(failure), _) => Some(failure),
        (Ok(_), None) => None,
        (Ok(found), Some(thing)) => {
            if goes_to(found.thing, thing) && is_fixed_for(own, thing.kind, found) {
                None
            } else {
                Some(at(TypeCode::TY9, span))
            }
        }
    }
}

/// Whether a list has more items than there are parts, or there are none to have.
#[tactic(auto, using(crate::proofs::PartLaws::misfits))]
fn is_misfit(scope: &Scope<'_>, thing: Option<ThingType>, items: &[Init<'_>]) -> bool
    ensures { result ≡ spec_is_misfit (parts_of scope.now thing) (init_shapes items.now) }
{
    match parts_count(scope, thing) {
        Some(count) => count < items.len(),
        None => true,
    }
}

/// What is wrong with a list at a span, by what is wrong with its items.
fn list_failure(misfit: bool, span: Span, items: Option<Failure>) -> Option<Failure>
    ensures { result ≡ or_else (if misfit then Some (spec_at TypeCode.TY9 span) else None) items }
{
    if misfit {
        Some(at(TypeCode::TY9, span))
    } else {
        items
    }
}

/// What is wrong with an initialiser of what has a type, in the initialiser of the next global. It is put into the row.
#[cycle(initialising)]
pub fn initialiser(
    view: View<'_, '_>,
    row: &mut Row,
    thing: Option<ThingType>,
    init: &Init<'_>,
) -> Result<Option<Failure>, NoMemory>
    ensures judged { IfOk result (λ failure. failure
        ≡ first (initialiser_premises view.entry.scope.now view.entry.scope.now.globals thing (init_shape init.now))) }
    ensures nodes { OnOk result (row.new ≡ row.old ++ aside_init view.entry.scope.now view.entry.function
        (init_shape init.now)) }
{
    match init {
        Init::Value(expr) => {
            let found = view.aside(row, expr)?;
            let own = view.scope.next_global();
            Ok(cell_failure(own, thing, expr.span, found))
        }
        Init::List { items, span } => {
            let wrong = list(view, row, thing, items)?;
            let misfit = is_misfit(view.scope, thing, items);
            Ok(list_failure(misfit, *span, wrong))
        }
    }
}

/// What is wrong with the items of a list, each beside its part. They are put into the row.
#[cycle(initialising)]
fn list(
    view: View<'_, '_>,
    row: &mut Row,
    thing: Option<ThingType>,
    items: &[Init<'_>],
) -> Result<Option<Failure>, NoMemory>
    ensures judged { IfOk result (λ failure. failure
        ≡ first (list_premises view.entry.scope.now view.entry.scope.now.globals (or_no_parts (parts_of view.entry.scope.now thing))
        (init_shapes items.now))) }
    ensures nodes { OnOk result (row.new ≡ row.old ++ aside_items view.entry.scope.now view.entry.function
        (init_shapes items.now)) }
{
    let mut failure = None;
    let mut number = 0;
    'each: for item in items {
        let part = part_at(view.scope, thing, number);
        failure = first_of(failure, initialiser(view, row, part, item)?);
        number += 1;
    }
    Ok(failure)
}
