//! Which locals of each body of a typed unit never change, and which functions have a body (C11 6.9.1).
ghost use Rattle.std.specs.Prelude.{◌≡◌, None, length, is_some, IfOk, OnOk};
ghost use Rattle.tsa_core.specs.Programs.{bodied_function, stable_locals as spec_stable_locals};
ghost use Rattle.tsa_core_environment.specs.Bodies.{stable_of, with_body, with_item, bodies_behind, bodies_of};
ghost use Rattle.tsa_tree.specs.declarations.Shapes.{head_shape};
ghost use Rattle.tsa_tree.specs.statements.Shapes.{stmt_shapes};
ghost use Rattle.tsa_tree.specs.types.Heads.{behind_head, inside, head_premises};
ghost use Rattle.tsa_tree.specs.types.Premises.{first};
ghost use Rattle.tsa_tree.specs.types.Runnable.{has_body};
ghost use Rattle.tsa_tree.specs.types.Scopes.{with_locals};
ghost use Rattle.tsa_tree.specs.types.Units.{outset as spec_outset, item_premises, behind_item, items_premises, refusal_of_types};
ghost use Rattle.tsa_tree.specs.units.Shapes.{function_shape, item_shape, item_shapes};

use crate::heads::{enter, know_head, leave};
use crate::items::know_item;
use crate::table::Table;
use std::alloc::Global;
use tsa_base::NoMemory;
use tsa_core_points::{Walk, body_steps, stable_locals};
use tsa_tree::item::{FnTree, Item};
use tsa_tree::stmt::Stmt;
use tsa_types_scope::{Scope, outset};

/// The locals of a body that never change, along a walk through it. Where its end is said to stand makes no difference.
fn stable_along<'a>(
    walk: &mut Walk<'a>,
    function: &FnTree<'a>,
    body: &'a [Stmt<'a>],
) -> Result<Vec<bool>, NoMemory>
    ensures stable { IfOk result (λ stable. stable.items ≡ stable_of walk.old.here (head_shape function.now) (stmt_shapes body.now)) }
    ensures inside { OnOk result (with_locals 0 walk.new.here ≡ with_locals 0 walk.old.here) }
{
    let steps = body_steps(walk.scope().allocator(), body, function.name.span)?;
    stable_locals(walk, &steps)
}

/// A function that is typed, with its body: what is known behind it.
fn keep_body<'a>(
    table: &mut Table<'a>,
    before: Scope<'a>,
    function: &FnTree<'a>,
    body: &'a [Stmt<'a>],
) -> Result<Scope<'a>, NoMemory>
    requires typed { first (head_premises before (head_shape function.now) (is_some function.now.body)) ≡ None }
    ensures behind { IfOk result (λ after. after ≡ behind_head before.entry (head_shape function.now) (is_some function.now.body)) }
    ensures kept { OnOk result (table.new ≡ with_body (inside before.entry (head_shape function.now) (is_some function.now.body))
        (head_shape function.now) (stmt_shapes body.now) table.old) }
{
    let mut inside = before;
    let outside = enter(&mut inside, function)?;
    let mut walk = Walk::new(inside);
    let stable = stable_along(&mut walk, function, body)?;
    table.keep(function.name.text, stable)?;
    let mut scope = walk.into_scope();
    leave(&mut scope, outside);
    Ok(scope)
}

/// What is known behind an item that is typed.
fn behind<'a>(before: Scope<'a>, item: &Item<'a>) -> Result<Scope<'a>, NoMemory>
    requires typed { first (item_premises before (item_shape item.now)) ≡ None }
    ensures { IfOk result (λ after. after ≡ behind_item before.entry (item_shape item.now)) }
{
    let mut scope = before;
    know_item(&mut scope, item)?;
    Ok(scope)
}

/// What is known behind the head of a function.
fn behind_function<'a>(before: Scope<'a>, function: &FnTree<'a>) -> Result<Scope<'a>, NoMemory>
    ensures { IfOk result (λ after. after ≡ behind_head before.entry (head_shape function.now) (is_some function.now.body)) }
{
    let mut scope = before;
    know_head(&mut scope, function)?;
    Ok(scope)
}

/// A function that is typed, with its body where it has one: what is known behind it.
fn keep_function<'a>(
    table: &mut Table<'a>,
    scope: Scope<'a>,
    function: &FnTree<'a>,
) -> Result<Scope<'a>, NoMemory>
    requires typed { first (item_premises scope (function_shape function.now)) ≡ None }
    ensures behind { IfOk result (λ after. after ≡ behind_item scope.entry (function_shape function.now)) }
    ensures kept { OnOk result (table.new ≡ with_item scope.entry (function_shape function.now) table.old) }
{
    match function.body {
        Some(body) => keep_body(table, scope, function, body),
        None => behind_function(scope, function),
    }
}

/// An item that is typed: what is known behind it.
fn keep_item<'a>(
    table: &mut Table<'a>,
    scope: Scope<'a>,
    item: &Item<'a>,
) -> Result<Scope<'a>, NoMemory>
    requires typed { first (item_premises scope (item_shape item.now)) ≡ None }
    ensures behind { IfOk result (λ after. after ≡ behind_item scope.entry (item_shape item.now)) }
    ensures kept { OnOk result (table.new ≡ with_item scope.entry (item_shape item.now) table.old) }
{
    match item {
        Item::Function(function) => keep_function(table, scope, function),
        _ => behind(scope, item),
    }
}

/// Items that are typed, in order.
fn keep_items<'a>(
    table: &mut Table<'a>,
    before: Scope<'a>,
    items: &[Item<'a>],
) -> Result<(), NoMemory>
    requires typed { first (items_premises before (item_shapes items.now)) ≡ None }
    ensures { OnOk result (table.new ≡ bodies_behind before.entry (item_shapes items.now) table.old) }
{
    let mut scope = before;
    'each: for item in items {
        scope = keep_item(table, scope, item)?;
    }
    Ok(())
}

/// How many parameters a function has.
fn params_count(head: &FnTree<'_>) -> usize
    ensures { result ≡ length (head_shape head.now).params }
{
    head.params.len()
}

/// The bodies of a unit by the names of their functions, and which locals of each of them never change.
#[derive(Drop)]
pub struct Bodies<'a> {
    pub(crate) items: &'a [Item<'a>],
    table: Table<'a>,
    ghost kept: { table ≡ bodies_of (item_shapes items.now) },
}

impl<'a> Bodies<'a> {
    /// The bodies of a unit that is typed.
    pub fn new(alloc: Global, items: &'a [Item<'a>]) -> Result<Bodies<'a>, NoMemory>
        requires typed { refusal_of_types (item_shapes items.now) ≡ None }
        ensures { IfOk result (λ bodies. bodies.items ≡ items.entry) }
    {
        let mut table = Table::new(alloc);
        keep_items(&mut table, outset(alloc, items)?, items)?;
        Ok(Bodies { items, table })
    }

    /// Whether a function has a body somewhere in the unit.
    pub fn has_body(&self, name: &[u8]) -> bool
        ensures { result ≡ has_body name.now (item_shapes self.now.items.now) }
    {
        self.table.has(name)
    }

    /// Which locals of a function's body never change, of which its attributes see the parameters; without a body no parameter does.
    pub fn stable(&self, head: &FnTree<'_>) -> Result<Vec<bool>, NoMemory>
        ensures { IfOk result (λ stable. stable.items
            ≡ spec_stable_locals (length (head_shape head.now).params)
            (bodied_function head.now.name.text.now (spec_outset (item_shapes self.now.items.now)) (item_shapes self.now.items.now))) }
    {
        self.table.get(head.name.text, params_count(head))
    }
}
