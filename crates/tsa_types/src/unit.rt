//! Functions with their bodies, and the items of a unit one by one (C11 6.9).
ghost use Rattle.std.specs.Prelude.{◌≡◌, ◌++◌, OnOk, IfOk};
ghost use Rattle.tsa_types_expressions.specs.Judgements.{Judges, forget};
ghost use Rattle.tsa_tree.specs.declarations.Shapes.{head_shape};
ghost use Rattle.tsa_tree.specs.statements.Shapes.{stmt_shapes};
ghost use Rattle.tsa_tree.specs.types.DeclaredTypes.{thing_type};
ghost use Rattle.tsa_tree.specs.types.Premises.{first};
ghost use Rattle.tsa_tree.specs.types.Statements.{statements_premises, behind_all};
ghost use Rattle.tsa_types_row.specs.BodyRows.{row_in_statements};
ghost use Rattle.tsa_types_row.specs.ItemRows.{row_in_item, row_in_unit_items, row_in_unit};
ghost use Rattle.tsa_tree.specs.units.Shapes.{end_of};
ghost use Rattle.tsa_tree.specs.types.Units.{outermost, item_premises, behind_item, items_premises};
ghost use Rattle.tsa_tree.specs.types.Units.{refusal_of_types};
ghost use Rattle.tsa_tree.specs.units.Shapes.{function_shape, item_shape, item_shapes};

use crate::functions::function_number;
use crate::heads::declare_head;
use std::alloc::Global;
use tsa_base::{NoMemory, Span};
use tsa_tree::item::{FnTree, Item};
use tsa_tree::kind::ThingType;
use tsa_tree::stmt::{Point, Stmt};
use tsa_types_declarations::{declare_alias, declare_enum, declare_global, declare_struct};
use tsa_types_expressions::{Mark, TypeRefusal, View, bare_node};
use tsa_types_row::{Op, Row};
use tsa_types_scope::{Cases, Names, Scope, outset};
use tsa_types_simple::{Around, collect_all_labels};
use tsa_types_statements::Walk;

/// Where the last point of a body stands: the brace that closes it.
fn end_span(points: &[Point<'_>]) -> Span
    ensures { result ≡ end_of points.now }
{
    match points.last() {
        Some(point) => point.span,
        None => Span { from: 0, to: 0 },
    }
}

/// The statements of a body in a function that gives a result, where its parameters are known.
fn body_statements<'a>(
    walk: &mut Walk<'a>,
    function: u32,
    gives: ThingType,
    body: &[Stmt<'a>],
) -> Result<(), TypeRefusal>
    ensures judged { Judges (first (statements_premises (outermost function gives (stmt_shapes body.now)) walk.old.scope
        (stmt_shapes body.now))) result }
    ensures behind { OnOk result (walk.new.scope ≡ behind_all walk.old.scope (stmt_shapes body.now)) }
    ensures nodes { OnOk result (walk.new.row ≡ walk.old.row ++ row_in_statements walk.old.scope function (stmt_shapes body.now)) }
{
    let mut labels = Names::new(walk.scope.allocator());
    collect_all_labels(&mut labels, body)?;
    let cases = Cases::new(walk.scope.allocator());
    let around = Around {
        function,
        result: gives,
        labels: &labels,
        in_loop: false,
        in_switch: false,
        cases: &cases,
        default: None,
    };
    walk.statements(&around, body)
}

/// The type of what a function gives.
fn result_type(scope: &Scope<'_>, function: &FnTree<'_>) -> Result<ThingType, NoMemory>
    ensures { IfOk result (λ thing. thing ≡ thing_type scope.now (head_shape function.now).result) }
{
    let view = View { scope, function: 0 };
    let mut unheard = Row::new(scope.allocator());
    let written = view.written(&mut unheard, &function.result)?;
    Ok(written.thing)
}

/// A function, whose parameters and locals end with it.
fn function_item<'a>(walk: &mut Walk<'a>, function: &FnTree<'a>) -> Result<(), TypeRefusal>
    ensures judged { Judges (first (item_premises walk.old.scope (function_shape function.now))) result }
    ensures behind { OnOk result (walk.new.scope ≡ behind_item walk.old.scope (function_shape function.now)) }
    ensures nodes { OnOk result (walk.new.row ≡ walk.old.row ++ row_in_item walk.old.scope (function_shape function.now)) }
{
    let gives = result_type(&walk.scope, function)?;
    let number = function_number(&walk.scope, function)?;
    let locals = walk.scope.next_local();
    let names = match declare_head(&mut walk.scope, &mut walk.row, number, function) {
        Ok(names) => names,
        Err(refusal) => return Err(refusal),
    };
    if let Some(body) = function.body {
        if let Err(refusal) = body_statements(walk, number, gives, body) {
            return Err(refusal);
        }
        walk.row
            .leaf(bare_node(Mark::new(Op::End, end_span(function.points))))?;
    }
    walk.scope.leave(names, locals);
    Ok(())
}

/// An item, after which what it declares is known.
fn declare_item<'a>(walk: &mut Walk<'a>, item: &Item<'a>) -> Result<(), TypeRefusal>
    ensures judged { Judges (first (item_premises walk.old.scope (item_shape item.now))) result }
    ensures behind { OnOk result (walk.new.scope ≡ behind_item walk.old.scope (item_shape item.now)) }
    ensures nodes { OnOk result (walk.new.row ≡ walk.old.row ++ row_in_item walk.old.scope (item_shape item.now)) }
{
    match item {
        Item::Structure(def) => declare_struct(&mut walk.scope, &mut walk.row, def),
        Item::Alias(def) => declare_alias(&mut walk.scope, &mut walk.row, def),
        Item::Enumeration(def) => declare_enum(&mut walk.scope, &mut walk.row, def),
        Item::Global(decl) => declare_global(&mut walk.scope, &mut walk.row, decl),
        Item::Function(function) => function_item(walk, function),
    }
}

/// Items in order.
fn declare_items<'a>(walk: &mut Walk<'a>, items: &[Item<'a>]) -> Result<(), TypeRefusal>
    ensures judged { Judges (first (items_premises walk.old.scope (item_shapes items.now))) result }
    ensures nodes { OnOk result (walk.new.row ≡ walk.old.row ++ row_in_unit_items walk.old.scope (item_shapes items.now)) }
{
    'each: for item in items {
        if let Err(refusal) = declare_item(walk, item) {
            return Err(refusal);
        }
    }
    Ok(())
}

/// The row of a unit that is typed, or the first premise of types that fails.
pub fn judge<'a>(alloc: Global, items: &[Item<'a>]) -> Result<Row, TypeRefusal>
    ensures judged { Judges (refusal_of_types (item_shapes items.now)) (forget result) }
    ensures nodes { IfOk result (λ row. row ≡ row_in_unit (item_shapes items.now)) }
{
    let mut walk = Walk {
        scope: outset(alloc, items)?,
        row: Row::new(alloc),
    };
    match declare_items(&mut walk, items) {
        Ok(()) => Ok(walk.row),
        Err(refusal) => Err(refusal),
    }
}
