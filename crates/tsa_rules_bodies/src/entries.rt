//! Bodies that are entered and left.
ghost use Rattle.std.specs.Prelude.{◌≡◌, ◌+◌, ◌∷◌, [], None, true, is_some, length, IfOk};
ghost use Rattle.tsa_base.specs.declared.token.Span.{Span as Close};
ghost use Rattle.tsa_core.specs.Control.{count_all};
ghost use Rattle.tsa_core_environment.specs.Functions.{outside_of};
ghost use Rattle.tsa_profile.specs.Judging.{unit_at};
ghost use Rattle.tsa_profile.specs.Units.{Unit as Given};
ghost use Rattle.tsa_rules_bodies.specs.Entering.{Enters, IsEntered};
ghost use Rattle.tsa_rules_bodies.specs.Knowing.{IsWithin, behind};
ghost use Rattle.tsa_rules_bodies.specs.Knowing.{Knowledge as Known};
ghost use Rattle.tsa_tree.specs.declarations.Shapes.{head_shape};
ghost use Rattle.tsa_tree.specs.statements.Shapes.{stmt_shapes, AreNumbered};
ghost use Rattle.tsa_tree.specs.types.Heads as heads;
ghost use Rattle.tsa_tree.specs.types.Premises as types;
ghost use Rattle.tsa_tree.specs.types.Units as typed;
ghost use Rattle.tsa_tree.specs.units.Shapes.{function_shape, item_shape, HasItsPoints, HaveTheirPoints};
ghost use Rattle.tsa_tree.specs.units.Syntax.{body_item};

use crate::inside::Inside;
use crate::knowledge::{Knowledge, enter_head, pass, pass_function, stable_locals};
use tsa_base::NoMemory;
use tsa_core_environment::leave;
use tsa_profile::Ground;
use tsa_tree::item::{FnTree, Item};
use tsa_tree::stmt::Stmt;
use tsa_types::function_number;

/// Enters the body of a function whose head is typed: its parameters are known there, and its own attributes.
pub fn enter_body<'a>(
    ground: &Ground<'_, 'a>,
    known: &mut Knowledge<'a>,
    head: &'a FnTree<'a>,
    body: &'a [Stmt<'a>],
) -> Result<Inside<'a>, NoMemory>
    requires typed { types.first (heads.head_premises known.old.here (head_shape head.now) true) ≡ None }
    requires body { is_some head.now.body ≡ true }
    requires numbered { AreNumbered body.now 0 }
    requires points { length head.now.points.now ≡ count_all (stmt_shapes body.now) + 1 }
    ensures { IfOk result (λ inside. IsEntered (unit_at ground.now) known.old (head_shape head.now) (stmt_shapes body.now) known.new inside) }
{
    let number = function_number(&known.scope, head)?;
    let stable = stable_locals(ground, head)?;
    let outside = enter_head(known, head, &stable)?;
    Ok(Inside {
        number,
        head,
        body,
        stable,
        outside,
    })
}

/// Leaves a body that was entered, however many locals were counted in it: its item is passed.
pub fn leave_body<'a>(known: &mut Knowledge<'a>, inside: &Inside<'a>)
    ensures attributes { known.new.attributes ≡ known.old.attributes }
    ensures behind { (unit : Given) (before : Known) (close : Close)
        → inside.now.outside ≡ outside_of before.here (head_shape inside.now.head.now) true
        → IsWithin unit before (head_shape inside.now.head.now) known.old
        → known.new ≡ behind unit before (body_item (head_shape inside.now.head.now) (stmt_shapes inside.now.body.now) close) }
{
    leave(&mut known.scope, inside.outside);
}

/// A function: its body is entered where it has one, and else it is passed.
fn enter_function<'a>(
    ground: &Ground<'_, 'a>,
    known: &mut Knowledge<'a>,
    head: &'a FnTree<'a>,
) -> Result<Option<Inside<'a>>, NoMemory>
    requires typed { types.first (typed.item_premises known.old.here (function_shape head.now)) ≡ None }
    requires points { ∥ HasItsPoints head.now ∥₁ }
    ensures { IfOk result (λ inside. Enters (unit_at ground.now) known.old (function_shape head.now) known.new inside) }
{
    match head.body {
        Some(body) => Ok(Some(enter_body(ground, known, head, body)?)),
        None => {
            pass_function(ground, known, head)?;
            Ok(None)
        }
    }
}

/// Enters the body that an item has, or passes an item without one.
pub fn enter_item<'a>(
    ground: &Ground<'_, 'a>,
    known: &mut Knowledge<'a>,
    item: &'a Item<'a>,
) -> Result<Option<Inside<'a>>, NoMemory>
    requires typed { types.first (typed.item_premises known.old.here (item_shape item.now)) ≡ None }
    requires points { ∥ HaveTheirPoints (item.now ∷ []) ∥₁ }
    ensures { IfOk result (λ inside. Enters (unit_at ground.now) known.old (item_shape item.now) known.new inside) }
{
    match item {
        Item::Function(head) => enter_function(ground, known, head),
        _ => {
            pass(ground, known, item)?;
            Ok(None)
        }
    }
}
