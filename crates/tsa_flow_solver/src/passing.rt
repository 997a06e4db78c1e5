//! What points make of the statuses of lanes.
ghost use Rattle.std.specs.Prelude.{◌≡◌, ◌+◌, ◌<◌, ◌↔◌, ℕ, nat_eq, length, IfOk, IsFalse, IsTrue};
ghost use Rattle.std.specs.List.{list_any};
ghost use Rattle.tsa_graph.specs.Rows.{last_in, outcome_in, point_in};
ghost use Rattle.tsa_graph_edges.specs.declared.link.Outcome.{Outcome};
ghost use Rattle.tsa_graph_edges.specs.Links.{outcome_of};
ghost use Rattle.tsa_flow_solver.specs.Passing.{ArePoints, IsCarried, IsClaimPassed, IsLeft, IsPassed, IsPending, IsStep, IsUnseen, Passes};
ghost use Rattle.tsa_flow_solver.specs.Rows.{AreRising, set_at};

use crate::lanes::Lanes;
use crate::row::Row;
use tsa_base::{NoMemory, PENDING_LIMIT};
use tsa_graph::Block;
use tsa_graph_edges::Outcome;
use tsa_rules::{Asked, Role, Status, Statuses};

/// A point, and an outcome of what is done there.
#[derive(Clone, Copy)]
pub struct Pass {
    pub point: u32,
    pub outcome: Outcome,
}

/// Whether a test looks at a try variable whose answer may stand unseen.
fn is_unseen(asked: Asked, set: Statuses) -> bool
    ensures { IsTrue result ↔ IsUnseen asked set }
{
    match asked {
        Asked::Call => false,
        Asked::Variable(variable) => variable < PENDING_LIMIT && set.has(Status::Pending(variable)),
    }
}

/// Whether a point tests such a variable.
fn is_pending(role: Role, set: Statuses) -> bool
    ensures { IsTrue result ↔ IsPending role set }
{
    match role {
        Role::Tests(test) => is_unseen(test.asked, set),
        _ => false,
    }
}

/// Whether a point tests a variable whose answer some lane may hold unseen.
fn may_be_pending(role: Role, row: &Row) -> bool
    ensures { IsFalse result → (lane : ℕ) → IsPending role (set_at row.now lane) → ⊥ }
{
    match role {
        Role::Tests(test) => is_unseen(test.asked, row.all()),
        _ => false,
    }
}

/// Whether a lane is among some.
fn is_among(claims: &[u32], lane: u32) -> bool
    ensures { result ≡ list_any (nat_eq lane) claims.now }
{
    claims.contains(&lane)
}

/// What a point makes of the statuses of a lane.
fn pass_in<L: Lanes>(lanes: &L, pass: Pass, lane: u32, set: Statuses) -> Statuses
    ensures { Passes (L.cases lanes.now lane pass.point) pass.outcome set result }
{
    lanes.case(lane, pass.point).image(pass.outcome, set)
}

/// What a point makes of the statuses of lanes whose path nothing of some claims, where it tests a variable whose answer they hold unseen.
fn pass_pending<L: Lanes>(lanes: &L, pass: Pass, claims: &[u32], row: &mut Row)
    requires { length row.old ≡ L.count lanes.now }
    ensures long { length row.new ≡ length row.old }
    ensures each { (lane : ℕ) → lane < L.count lanes.now
        → IsPassed (L.cases lanes.now lane pass.point) pass.outcome claims.now lane (set_at row.old lane) (set_at row.new lane) }
{
    let role = lanes.role(pass.point);
    'lanes: for lane in 0..lanes.count() {
        let set = row.at(lane);
        if is_pending(role, set) && !is_among(claims, lane) {
            row.put(lane, pass_in(lanes, pass, lane, set));
        }
    }
}

/// What a point makes of the statuses of some lanes.
fn pass_claims<L: Lanes>(lanes: &L, pass: Pass, claims: &[u32], row: &mut Row)
    requires wide { length row.old ≡ L.count lanes.now }
    requires rising { AreRising claims.now }
    ensures long { length row.new ≡ length row.old }
    ensures each { (lane : ℕ) → lane < L.count lanes.now
        → IsClaimPassed (L.cases lanes.now lane pass.point) pass.outcome claims.now lane (set_at row.old lane) (set_at row.new lane) }
{
    'claims: for lane in claims {
        let set = pass_in(lanes, pass, *lane, row.at(*lane));
        row.put(*lane, set);
    }
}

/// What a point makes of the statuses of all lanes.
fn pass_row<L: Lanes>(lanes: &L, pass: Pass, row: &mut Row)
    requires wide { length row.old ≡ L.count lanes.now }
    ensures long { length row.new ≡ length row.old }
    ensures each { (lane : ℕ) → pass.point < L.points lanes.now → lane < L.count lanes.now
        → Passes (L.cases lanes.now lane pass.point) pass.outcome (set_at row.old lane) (set_at row.new lane) }
{
    let claims = lanes.claims(pass.point);
    if may_be_pending(lanes.role(pass.point), row) {
        pass_pending(lanes, pass, claims, row);
    }
    pass_claims(lanes, pass, claims, row);
}

/// The point of a block at a place, and the outcome by which the next one is reached from there.
pub(crate) fn pass_at(block: &Block, index: usize) -> Pass
    requires inside { index < last_in block.now }
    requires long { length block.now.points.items ≡ length block.now.inner.items + 1 }
    ensures point { result.point ≡ point_in block.now index }
    ensures outcome { outcome_of result.outcome ≡ outcome_in block.now index }
{
    Pass {
        point: block.points[index],
        outcome: block.inner[index],
    }
}

/// What the statuses of all lanes at a place of a block are at the next one.
pub(crate) fn step<L: Lanes>(lanes: &L, block: &Block, index: usize, row: &mut Row)
    requires wide { length row.old ≡ L.count lanes.now }
    requires inside { index < last_in block.now }
    requires long { length block.now.points.items ≡ length block.now.inner.items + 1 }
    ensures long { length row.new ≡ length row.old }
    ensures each { (lane : ℕ) → point_in block.now index < L.points lanes.now → lane < L.count lanes.now
        → IsStep (L.cases lanes.now lane) block.now index (set_at row.old lane) (set_at row.new lane) }
{
    pass_row(lanes, pass_at(block, index), row);
}

/// What the statuses of all lanes at the first point of a block become at its last one.
pub(crate) fn along<L: Lanes>(lanes: &L, block: &Block, row: &mut Row)
    requires wide { length row.old ≡ L.count lanes.now }
    requires long { length block.now.points.items ≡ length block.now.inner.items + 1 }
    ensures long { length row.new ≡ length row.old }
    ensures each { (lane : ℕ) → ArePoints (L.points lanes.now) block.now → lane < L.count lanes.now
        → IsCarried (L.cases lanes.now lane) block.now (set_at row.old lane) (last_in block.now) (set_at row.new lane) }
{
    'places: for index in 0..block.inner.len() {
        step(lanes, block, index, row);
    }
}

/// What the statuses of all lanes at the last point of a block become where it is left by an outcome.
pub(crate) fn leave<L: Lanes>(
    lanes: &L,
    block: &Block,
    outcome: Outcome,
    last: &Row,
) -> Result<Row, NoMemory>
    requires wide { length last.now ≡ L.count lanes.now }
    requires long { length block.now.points.items ≡ length block.now.inner.items + 1 }
    ensures long { IfOk result (λ row. length row ≡ L.count lanes.now) }
    ensures each { IfOk result (λ row. (lane : ℕ) → ArePoints (L.points lanes.now) block.now → lane < L.count lanes.now
        → IsLeft (L.cases lanes.now lane) block.now outcome (set_at last.now lane) (set_at row lane)) }
{
    let mut row = last.copy()?;
    let point = block.points[block.inner.len()];
    pass_row(lanes, Pass { point, outcome }, &mut row);
    Ok(row)
}

/// Whether a point leaves the statuses of all lanes as they are: it claims no path, and tests no variable whose answer one may hold unseen.
fn stays<L: Lanes>(lanes: &L, point: u32, row: &Row) -> bool
    ensures { IsTrue result → (lane : ℕ) (outcome : Outcome) → point < L.points lanes.now → lane < L.count lanes.now
        → Passes (L.cases lanes.now lane point) outcome (set_at row.now lane) (set_at row.now lane) }
{
    if !lanes.claims(point).is_empty() {
        return false;
    }
    !may_be_pending(lanes.role(point), row)
}

/// Whether the last point of a block leaves the statuses of all lanes as they are.
pub(crate) fn last_stays<L: Lanes>(lanes: &L, block: &Block, last: &Row) -> bool
    requires { length block.now.points.items ≡ length block.now.inner.items + 1 }
    ensures { IsTrue result → (lane : ℕ) (outcome : Outcome) → ArePoints (L.points lanes.now) block.now → lane < L.count lanes.now
        → IsLeft (L.cases lanes.now lane) block.now outcome (set_at last.now lane) (set_at last.now lane) }
{
    stays(lanes, block.points[block.inner.len()], last)
}

/// What the statuses of a lane at a point are behind it.
pub(crate) fn step_in<L: Lanes>(lanes: &L, pass: Pass, lane: u32, set: Statuses) -> Statuses
    ensures { pass.point < L.points lanes.now → lane < L.count lanes.now
        → Passes (L.cases lanes.now lane pass.point) pass.outcome set result }
{
    if is_pending(lanes.role(pass.point), set) {
        return pass_in(lanes, pass, lane, set);
    }
    if is_among(lanes.claims(pass.point), lane) {
        return pass_in(lanes, pass, lane, set);
    }
    set
}
