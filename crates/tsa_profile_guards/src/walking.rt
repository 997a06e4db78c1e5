//! The walk over an expression (C11 6.5), from its last part to its first: the cells that are read, and the first premise of the profile
//! that fails, since those of a node come before those of its parts. The recursion is as deep as the tree is high.
ghost use Rattle.std.specs.Prelude.{◌≡◌, [], false, true, ◌++◌, IfOk, OnOk};
ghost use Rattle.tsa_core.specs.Cells.{argument_cells, cells_read, inner_cells};
ghost use Rattle.tsa_core.specs.Meanings.{meaning, of_name};
ghost use Rattle.tsa_tree.specs.expressions.Shapes.{shape, shapes};
ghost use Rattle.tsa_tree.specs.expressions.Syntax.{unary};
ghost use Rattle.tsa_profile_guards.specs.Accesses.{before, reads as spec_reads, written};
ghost use Rattle.tsa_profile_accesses.specs.declared.standing.Standing.TheVariants.{Inside};
ghost use Rattle.tsa_profile_accesses.specs.Expressions.{expression};
ghost use Rattle.tsa_profile_accesses.specs.Premises.{first, or_else, told};
ghost use Rattle.tsa_profile_accesses.specs.ExpressionViews.{behind, cells_behind, loaded, seen_of, thing_of};
ghost use Rattle.tsa_tree.specs.types.Scopes.{known_in};
ghost use Rattle.tsa_profile_guards.specs.Failures.{failing, failing_arguments};
ghost use Rattle.tsa_profile_guards.specs.Values.{name_code, name_read, unled};
ghost use Rattle.tsa_profile_accesses.specs.NodeAnswers.{view_of};
ghost use Rattle.tsa_place_model.specs.LockPaths.{stable_in};

use tsa_base::{NoMemory, Span};
use tsa_profile_accesses::{
    Accesses, Body, Failure, Footprint, ProfileCode, Seen, Standing, Uses, are_some, binary_thing,
    called_thing, code_if, operator_at, prefix_thing, value_thing,
};
use tsa_tree::expr::{BinaryOp, Expr, ExprKind, UnaryOp};
use tsa_tree::kind::{ExpressionType, Kind};
use tsa_types_expressions::number_type;
use tsa_types_operators::value;

/// How an expression stands: as a pointer, which leads to where it points, or as a place; and where it stands, by which call it may be.
#[derive(Clone, Copy)]
pub struct Stand {
    as_pointer: bool,
    standing: Standing,
}

/// A prefix operator: where the whole of it stands.
#[derive(Clone, Copy)]
struct Prefix {
    op: UnaryOp,
    span: Span,
    stand: Stand,
}

/// As a place, inside of others.
pub fn as_place() -> Stand
    ensures { result ≡ record { as_pointer = false; standing = Inside } }
{
    Stand {
        as_pointer: false,
        standing: Standing::Inside,
    }
}

/// As a pointer, inside of others.
fn as_pointer() -> Stand
    ensures { result ≡ record { as_pointer = true; standing = Inside } }
{
    Stand {
        as_pointer: true,
        standing: Standing::Inside,
    }
}

/// As a value, wherever it stands.
fn as_value(standing: Standing) -> Stand
    ensures { result ≡ record { as_pointer = false; standing = standing } }
{
    Stand {
        as_pointer: false,
        standing,
    }
}

/// A prefix operator where the whole of it stands.
fn prefix_at(op: UnaryOp, span: Span, stand: Stand) -> Prefix
    ensures { result ≡ record { op = op; span = span; stand = stand } }
{
    Prefix { op, span, stand }
}

/// What an expression is, where it leads as a place or as a pointer, and the guards of its access. The cells that are read inside it come
/// before those that were found, and what fails in it before what failed.
#[cycle(walking)]
#[tactic(auto, using(crate::proofs::Walk::steps, crate::proofs::Failures::fails))]
pub(crate) fn walk(
    body: Body<'_, '_>,
    uses: &mut Uses,
    stand: Stand,
    expr: &Expr<'_>,
) -> Result<Seen, NoMemory>
    ensures seen { IfOk result (λ seen. seen ≡ seen_of body.entry.layout.now (stable_in body.entry.sight.stable.now)
        body.entry.sight.scope.now stand.as_pointer (shape expr.now)) }
    ensures cells { OnOk result (uses.new.accesses ≡ before body.entry.layout.now (stable_in body.entry.sight.stable.now)
        body.entry.sight.scope.now (inner_cells body.entry.sight.scope.now (shape expr.now)) uses.old.accesses) }
    ensures failure { OnOk result (uses.new.failure ≡ failing (view_of body.entry) stand.standing false (shape expr.now) uses.old.failure) }
{
    match &expr.kind {
        ExprKind::Number { value, unsigned } => {
            Ok(body.plain(value_thing(number_type(*value, *unsigned))))
        }
        ExprKind::Null => Ok(body.plain(value_thing(value(Kind::Null)))),
        ExprKind::Named(name) => body.name(name.text)?.meant_as(stand.as_pointer),
        ExprKind::Call { callee, args } => {
            arguments(body, uses, args)?;
            let function = body.function(callee.text);
            let code = body.call_code(stand.standing, function, args)?;
            uses.tell(code, expr.span);
            Ok(body.plain(called_thing(body.sight.scope.known(callee.text))))
        }
        ExprKind::Unary { op, inner } => {
            with_prefix(body, uses, prefix_at(*op, expr.span, stand), inner)
        }
        ExprKind::Binary { op, left, right } => {
            let sides = body.sides_of(operator_at(*op, stand.standing), left, right)?;
            let right = value_type(body, uses, sides.right, right)?;
            let left = value_type(body, uses, sides.left, left)?;
            uses.tell(sides.code, expr.span);
            Ok(body.plain(binary_thing(*op, left, right)))
        }
        ExprKind::Field { base, name, arrow } => {
            let base = owner(body, uses, *arrow, base)?;
            body.field(base, name.text, *arrow)?
                .meant_as(stand.as_pointer)
        }
        ExprKind::Index { base, index } => {
            value_type(body, uses, Standing::Inside, index)?;
            let base = walk(body, uses, as_place(), base)?;
            body.element(base, index)?.meant_as(stand.as_pointer)
        }
    }
}

/// The same of an expression with a prefix operator.
#[cycle(walking)]
#[tactic(auto, using(crate::proofs::Walk::steps, crate::proofs::Failures::fails))]
fn with_prefix(
    body: Body<'_, '_>,
    uses: &mut Uses,
    prefix: Prefix,
    inner: &Expr<'_>,
) -> Result<Seen, NoMemory>
    ensures seen { IfOk result (λ seen. seen ≡ seen_of body.entry.layout.now (stable_in body.entry.sight.stable.now)
        body.entry.sight.scope.now prefix.stand.as_pointer (unary prefix.op (shape inner.now) prefix.span)) }
    ensures cells { OnOk result (uses.new.accesses ≡ before body.entry.layout.now (stable_in body.entry.sight.stable.now)
        body.entry.sight.scope.now (inner_cells body.entry.sight.scope.now (unary prefix.op (shape inner.now) prefix.span))
        uses.old.accesses) }
    ensures failure { OnOk result (uses.new.failure
        ≡ failing (view_of body.entry) prefix.stand.standing false (unary prefix.op (shape inner.now) prefix.span) uses.old.failure) }
{
    let alloc = body.sight.scope.allocator();
    match prefix.op {
        UnaryOp::Address => {
            let inner = walk(body, uses, as_place(), inner)?;
            let code = code_if(are_some(&inner.guards), ProfileCode::PF3);
            uses.tell(code, prefix.span);
            Ok(inner.address(alloc, prefix.stand.as_pointer))
        }
        UnaryOp::Follow => {
            let inner = operand(body, uses, as_pointer(), inner)?;
            Ok(inner.followed(alloc, prefix.stand.as_pointer))
        }
        UnaryOp::Not => {
            let standing = prefix.stand.standing.under_not();
            let inner = value_type(body, uses, standing, inner)?;
            Ok(body.plain(prefix_thing(UnaryOp::Not, inner)))
        }
        UnaryOp::Minus | UnaryOp::Flip => {
            let inner = value_type(body, uses, Standing::Inside, inner)?;
            Ok(body.plain(prefix_thing(prefix.op, inner)))
        }
    }
}

/// The same of an expression whose value is used: a cell that it stands for is read.
#[cycle(walking)]
#[tactic(auto, using(crate::proofs::Operands::own_before, crate::proofs::Failures::value_fails))]
fn operand(
    body: Body<'_, '_>,
    uses: &mut Uses,
    stand: Stand,
    expr: &Expr<'_>,
) -> Result<Seen, NoMemory>
    ensures seen { IfOk result (λ seen. seen
        ≡ loaded (seen_of body.entry.layout.now (stable_in body.entry.sight.stable.now) body.entry.sight.scope.now stand.as_pointer
        (shape expr.now))) }
    ensures cells { OnOk result (uses.new.accesses ≡ before body.entry.layout.now (stable_in body.entry.sight.stable.now)
        body.entry.sight.scope.now (cells_read body.entry.sight.scope.now (shape expr.now)) uses.old.accesses) }
    ensures failure { OnOk result (uses.new.failure ≡ failing (view_of body.entry) stand.standing true (shape expr.now) uses.old.failure) }
{
    let seen = walk(body, uses, stand, expr)?;
    uses.tell(body.guard_code(&seen), expr.span);
    seen.loaded(body.sight.scope.allocator(), &mut uses.accesses, expr.span)
}

/// The same of what stands before a member's name: a pointer before an arrow is used, and what stands before a point is meant as a place.
#[cycle(walking)]
fn owner(
    body: Body<'_, '_>,
    uses: &mut Uses,
    arrow: bool,
    expr: &Expr<'_>,
) -> Result<Seen, NoMemory>
    ensures seen { IfOk result (λ seen. seen
        ≡ behind arrow (seen_of body.entry.layout.now (stable_in body.entry.sight.stable.now) body.entry.sight.scope.now arrow
        (shape expr.now))) }
    ensures cells { OnOk result (uses.new.accesses ≡ before body.entry.layout.now (stable_in body.entry.sight.stable.now)
        body.entry.sight.scope.now (cells_behind arrow body.entry.sight.scope.now (shape expr.now)) uses.old.accesses) }
    ensures failure { OnOk result (uses.new.failure ≡ failing (view_of body.entry) Inside arrow (shape expr.now) uses.old.failure) }
{
    if arrow {
        operand(body, uses, as_pointer(), expr)
    } else {
        walk(body, uses, as_place(), expr)
    }
}

/// The type of a name whose value is used: a cell that it stands for is read.
#[tactic(auto, unfolding(crate::specs::Values::name_read, crate::specs::Values::name_code))]
fn named_value(
    body: Body<'_, '_>,
    uses: &mut Uses,
    name: &[u8],
    span: Span,
) -> Result<ExpressionType, NoMemory>
    ensures value { IfOk result (λ t. t ≡ (thing_of (of_name (known_in body.entry.sight.scope.now name.now))).expression) }
    ensures cells { OnOk result (uses.new.accesses ≡ name_read body.entry.layout.now body.entry.sight.scope.now name.now span
        ++ uses.old.accesses) }
    ensures failure { OnOk result (uses.new.failure
        ≡ or_else (told span (name_code body.entry.is_run body.entry.layout.now body.entry.sight.scope.now name.now)) uses.old.failure) }
{
    let seen = body.name_value(name)?;
    uses.tell(body.guard_code(&seen), span);
    let seen = seen.loaded(body.sight.scope.allocator(), &mut uses.accesses, span)?;
    Ok(seen.thing.expression)
}

/// The type of an expression whose value is used. A number reads nothing, and nothing fails in it.
#[cycle(walking)]
#[tactic(auto, using(crate::proofs::Walk::seen_type, crate::proofs::Walk::values, crate::proofs::Failures::values_fail))]
fn value_type(
    body: Body<'_, '_>,
    uses: &mut Uses,
    standing: Standing,
    expr: &Expr<'_>,
) -> Result<ExpressionType, NoMemory>
    ensures value { IfOk result (λ t. t ≡ (meaning body.entry.sight.scope.now (shape expr.now)).type) }
    ensures cells { OnOk result (uses.new.accesses ≡ before body.entry.layout.now (stable_in body.entry.sight.stable.now)
        body.entry.sight.scope.now (cells_read body.entry.sight.scope.now (shape expr.now)) uses.old.accesses) }
    ensures failure { OnOk result (uses.new.failure ≡ failing (view_of body.entry) standing true (shape expr.now) uses.old.failure) }
{
    match &expr.kind {
        ExprKind::Number { value, unsigned } => Ok(number_type(*value, *unsigned)),
        ExprKind::Named(name) => named_value(body, uses, name.text, expr.span),
        _ => Ok(
            operand(body, uses, as_value(standing), expr)?
                .thing
                .expression,
        ),
    }
}

/// The arguments of a call, from the last to the first.
#[cycle(walking)]
fn arguments(body: Body<'_, '_>, uses: &mut Uses, args: &[Expr<'_>]) -> Result<(), NoMemory>
    ensures cells { OnOk result (uses.new.accesses ≡ before body.entry.layout.now (stable_in body.entry.sight.stable.now)
        body.entry.sight.scope.now (argument_cells body.entry.sight.scope.now (shapes args.now)) uses.old.accesses) }
    ensures failure { OnOk result (uses.new.failure ≡ failing_arguments (view_of body.entry) (shapes args.now) uses.old.failure) }
{
    let mut number = args.len();
    'each: while number > 0 {
        number -= 1;
        value_type(body, uses, Standing::Inside, &args[number])?;
    }
    Ok(())
}

/// Adds the cells that are read for the value of an expression, in order of the text, and tells the first premise that fails in it.
#[tactic(auto, using(crate::proofs::Operands::before_none, crate::proofs::Failures::none_behind))]
pub fn reads(
    body: Body<'_, '_>,
    found: &mut Footprint,
    standing: Standing,
    expr: &Expr<'_>,
) -> Result<Option<Failure>, NoMemory>
    ensures cells { OnOk result (found.new ≡ found.old ++ spec_reads body.entry.layout.now (stable_in body.entry.sight.stable.now)
        body.entry.sight.scope.now (shape expr.now)) }
    ensures failure { IfOk result (λ failure. failure ≡ first (expression (view_of body.entry) standing (shape expr.now))) }
{
    let mut uses = Uses::within(found.take_room());
    value_type(body, &mut uses, standing, expr)?;
    let failure = uses.failure;
    found.put(uses.accesses)?;
    Ok(failure)
}

/// What a left side is, where it isn't asked where that leads. The cells that are read on the way to it are found, and what fails there.
#[tactic(auto, using(crate::proofs::Walk::steps, crate::proofs::Failures::fails))]
fn left_seen(body: Body<'_, '_>, uses: &mut Uses, left: &Expr<'_>) -> Result<Seen, NoMemory>
    ensures seen { IfOk result (λ seen. unled seen
        ≡ unled (seen_of body.entry.layout.now (stable_in body.entry.sight.stable.now) body.entry.sight.scope.now false (shape left.now))) }
    ensures cells { OnOk result (uses.new.accesses ≡ before body.entry.layout.now (stable_in body.entry.sight.stable.now)
        body.entry.sight.scope.now (inner_cells body.entry.sight.scope.now (shape left.now)) uses.old.accesses) }
    ensures failure { OnOk result (uses.new.failure ≡ failing (view_of body.entry) Inside false (shape left.now) uses.old.failure) }
{
    match &left.kind {
        ExprKind::Named(name) => body.name_value(name.text),
        _ => walk(body, uses, as_place(), left),
    }
}

/// The accesses of a left side, which are found in some room, and what fails there.
fn left_side(
    body: Body<'_, '_>,
    room: Accesses,
    op: Option<BinaryOp>,
    left: &Expr<'_>,
) -> Result<Uses, NoMemory>
    requires room { room ≡ [] }
    ensures cells { IfOk result (λ uses. uses.accesses ≡ written body.entry.layout.now (stable_in body.entry.sight.stable.now)
        body.entry.sight.scope.now op (shape left.now)) }
    ensures failure { IfOk result (λ uses. uses.failure ≡ first (expression (view_of body.entry) Inside (shape left.now))) }
{
    let mut uses = Uses::within(room);
    let seen = left_seen(body, &mut uses, left)?;
    uses.tell(body.guard_code(&seen), left.span);
    seen.put_write(body.sight.scope.allocator(), &mut uses.accesses, left.span)?;
    match op {
        Some(_) => {
            seen.loaded(body.sight.scope.allocator(), &mut uses.accesses, left.span)?;
            Ok(uses)
        }
        None => Ok(uses),
    }
}

/// Adds the cells that an assignment reads and writes for its left side: the cell that it is, which is read before where an operator joins
/// the old value, and those that are read on the way to it. Tells the first premise that fails there.
pub fn writes(
    body: Body<'_, '_>,
    found: &mut Footprint,
    op: Option<BinaryOp>,
    left: &Expr<'_>,
) -> Result<Option<Failure>, NoMemory>
    ensures cells { OnOk result (found.new ≡ found.old ++ written body.entry.layout.now (stable_in body.entry.sight.stable.now)
        body.entry.sight.scope.now op (shape left.now)) }
    ensures failure { IfOk result (λ failure. failure ≡ first (expression (view_of body.entry) Inside (shape left.now))) }
{
    let uses = left_side(body, found.take_room(), op, left)?;
    let failure = uses.failure;
    found.put(uses.accesses)?;
    Ok(failure)
}
