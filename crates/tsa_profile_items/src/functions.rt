//! Functions with and without bodies, and what is known behind each.
ghost use Rattle.std.specs.Prelude.{◌≡◌, ◌++◌, None, true, false, is_some, OnOk};
ghost use Rattle.tsa_base.specs.declared.token.Span.{Span as Close};
ghost use Rattle.tsa_profile_context.specs.Bodies.{points_premises};
ghost use Rattle.tsa_profile_context.specs.ItemJudgements.{Judges};
ghost use Rattle.tsa_profile_context.specs.Judging.{behind, declared_attributes, unit_at};
ghost use Rattle.tsa_profile_context.specs.Units.{around, attributes_behind, heads_premises, is_alone as spec_is_alone, item_premises};
ghost use Rattle.tsa_profile_context.specs.Units.{points_in};
ghost use Rattle.tsa_profile_accesses.specs.Premises.{first};
ghost use Rattle.tsa_tree.specs.declarations.Shapes.{head_shape};
ghost use Rattle.tsa_tree.specs.statements.Shapes.{stmt_shapes};
ghost use Rattle.tsa_tree.specs.types.Heads as heads;
ghost use Rattle.tsa_tree.specs.types.Premises as types;
ghost use Rattle.tsa_tree.specs.types.Units as typed;
ghost use Rattle.tsa_tree.specs.units.Shapes.{function_shape};
ghost use Rattle.tsa_tree.specs.units.Syntax.{function_item, body_item};

use crate::bodies::{Inside, alone, judge_body};
use tsa_base::Span;
use tsa_core_environment::leave;
use tsa_profile_context::{Ground, Knowledge, ProfileRefusal};
use tsa_tree::item::FnTree;
use tsa_tree::stmt::Stmt;
use tsa_types::function_number;
use tsa_types_scope::Scope;

/// Where the brace stands that closes a body; where there is none, the function's name.
fn close_of(head: &FnTree<'_>) -> Span {
    match head.points.last() {
        Some(point) => point.span,
        None => head.name.span,
    }
}

/// A function with its body.
fn bodied<'a>(
    ground: &Ground<'_, 'a>,
    known: &mut Knowledge<'a>,
    head: &FnTree<'a>,
    body: &'a [Stmt<'a>],
) -> Result<(), ProfileRefusal>
    requires typed { types.first (heads.head_premises known.old.here (head_shape head.now) true) ≡ None }
    requires body { is_some head.now.body ≡ true }
    ensures judged { Judges (first (heads_premises (unit_at ground.now) known.old.attributes known.old.here (head_shape head.now) true
        ++ points_premises (around (unit_at ground.now) (declared_attributes (unit_at ground.now) known.old (head_shape head.now) true)
        known.old.here (head_shape head.now)) (points_in known.old.here (head_shape head.now) (stmt_shapes body.now)))) result }
    ensures behind { (close : Close) → OnOk result
        (known.new ≡ behind (unit_at ground.now) known.old (body_item (head_shape head.now) (stmt_shapes body.now) close)) }
{
    let number = function_number(&known.scope, head)?;
    let stable = ground.stable(head)?;
    let outside = ground.enter_head(known, head, &stable)?;
    let inner = Inside {
        number,
        name: head.name.span,
        close: close_of(head),
        stable: &stable,
    };
    judge_body(ground, known, inner, body)?;
    leave(&mut known.scope, outside);
    Ok(())
}

/// Whether a declaration is the first one of a function that has a body nowhere.
fn is_alone(ground: &Ground<'_, '_>, scope: &Scope<'_>, head: &FnTree<'_>) -> bool
    ensures { result ≡ spec_is_alone (unit_at ground.now) scope.now (head_shape head.now) }
{
    !ground.has_body(head) && scope.declared(head.name.text).is_none()
}

/// A function without a body.
fn prototype<'a>(
    ground: &Ground<'_, 'a>,
    known: &mut Knowledge<'a>,
    head: &FnTree<'a>,
) -> Result<(), ProfileRefusal>
    requires typed { types.first (heads.head_premises known.old.here (head_shape head.now) false) ≡ None }
    requires body { is_some head.now.body ≡ false }
    ensures judged { Judges (first (heads_premises (unit_at ground.now) known.old.attributes known.old.here (head_shape head.now) false))
        result }
    ensures behind { OnOk result (known.new ≡ behind (unit_at ground.now) known.old (function_item (head_shape head.now))) }
{
    let number = function_number(&known.scope, head)?;
    let is_alone = is_alone(ground, &known.scope, head);
    let stable = ground.stable(head)?;
    let outside = ground.enter_head(known, head, &stable)?;
    let inner = Inside {
        number,
        name: head.name.span,
        close: head.name.span,
        stable: &stable,
    };
    alone(ground, known, inner, is_alone)?;
    leave(&mut known.scope, outside);
    Ok(())
}

/// A function: its head, and its body where it has one.
pub fn function<'a>(
    ground: &Ground<'_, 'a>,
    known: &mut Knowledge<'a>,
    head: &FnTree<'a>,
) -> Result<(), ProfileRefusal>
    requires typed { types.first (typed.item_premises known.old.here (function_shape head.now)) ≡ None }
    ensures judged { Judges (first (item_premises (unit_at ground.now) known.old.attributes
        (attributes_behind (unit_at ground.now) known.old.attributes known.old.here (function_shape head.now)) known.old.here
        (function_shape head.now))) result }
    ensures behind { OnOk result (known.new ≡ behind (unit_at ground.now) known.old (function_shape head.now)) }
{
    match head.body {
        Some(body) => bodied(ground, known, head, body),
        None => prototype(ground, known, head),
    }
}
