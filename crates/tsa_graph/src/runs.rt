//! The longest runs of points.
ghost use Rattle.std.specs.Prelude.{◌≡◌, ◌<◌, ◌∷◌, ◌++◌, ℕ, [], Some, None, true, false, is_some, nat_lt, slice_index_or, reverse, length};
ghost use Rattle.std.specs.Prelude.{IfOk, OnOk};
ghost use Rattle.tsa_graph.specs.Runs.{step as spec_step, last_of, AreWays, IsChain, AreLongest, bit, times_in};
ghost use Rattle.tsa_graph.specs.Tracing.{is_seen as spec_is_seen, but, IsClosed, IsMarked, IsRound, Keeps, GoesOn, SeesHeads, SeesAll};
ghost use Rattle.tsa_graph.specs.Tracing.{AreRuns};

use crate::membership::{is_seen, mark, step};
use std::alloc::Global;
use std::marker::Model;
use tsa_base::NoMemory;

/// Runs in order. Contracts see the lists of their points.
#[derive(Drop)]
pub struct Runs {
    alloc: Global,
    runs: Vec<Vec<u32>>,
}

impl Model for Runs {
    ghost use Rattle.std.specs.Prelude.{List, ℕ, map};

    ghost Value = { List (List ℕ) };

    ghost view = { λ a. map (λ run. run.items) a.runs.items };
}

impl Runs {
    /// No runs. No memory is taken.
    fn new(alloc: Global) -> Runs
        ensures { result ≡ [] }
    {
        Runs {
            alloc,
            runs: Vec::new(alloc),
        }
    }

    /// How many runs there are.
    pub fn len(&self) -> usize
        ensures { result ≡ length self.now }
    {
        self.runs.len()
    }

    /// The points of a run by its number, from 0; none of one that isn't there.
    pub fn at(&self, number: usize) -> &[u32]
        ensures { result.now ≡ slice_index_or self.now number [] }
    {
        match self.runs.get(number) {
            Some(run) => run,
            None => &[],
        }
    }

    /// A further run.
    #[tactic(auto, using(crate::proofs::Lists::further))]
    fn push(&mut self, run: Vec<u32>) -> Result<(), NoMemory>
        ensures { OnOk result (self.new ≡ self.old ++ run.items ∷ []) }
    {
        self.runs.push(run)?;
        Ok(())
    }
}

/// The run from a point on that none leads to.
fn path_from(
    alloc: Global,
    next: &[Option<u32>],
    seen: &mut Vec<bool>,
    head: u32,
) -> Result<Vec<u32>, NoMemory>
    requires size { length seen.old.items ≡ length next.now }
    requires one { (p q r : ℕ) → spec_step next.now p ≡ Some r → spec_step next.now q ≡ Some r → p ≡ q }
    requires within { (p q : ℕ) → spec_step next.now p ≡ Some q → q < length next.now }
    requires closed { IsClosed next.now seen.old.items }
    requires head { (head < length next.now) × (spec_is_seen seen.old.items head ≡ false)
        × ((p : ℕ) → spec_step next.now p ≡ Some head → ⊥) }
    ensures chain { IfOk result (λ run. IsChain next.now run.items) }
    ensures ends { IfOk result (λ run. spec_step next.now (last_of run.items) ≡ None) }
    ensures marked { IfOk result (λ run. IsMarked run.items seen.old.items seen.new.items) }
    ensures head { OnOk result (spec_is_seen seen.new.items head ≡ true) }
    ensures closed { OnOk result (IsClosed next.now seen.new.items) }
    ensures size { OnOk result (length seen.new.items ≡ length next.now) }
{
    let mut run = Vec::new(alloc);
    run.push(head)?;
    mark(seen, head);
    let mut last = head;
    'on: while let Some(point) = step(next, last) {
        run.push(point)?;
        mark(seen, point);
        last = point;
    }
    Ok(run)
}

/// The point before another on a way back that ends where it began.
fn before(back: &[Option<u32>], point: u32, head: u32) -> Option<u32>
    ensures { result ≡ but (spec_step back.now point) head }
{
    match step(back, point) {
        Some(before) if before != head => Some(before),
        _ => None,
    }
}

/// The points of a run that leads back to a point, from the one before that on.
fn way_back(
    alloc: Global,
    back: &[Option<u32>],
    seen: &mut Vec<bool>,
    head: u32,
) -> Result<Vec<u32>, NoMemory>
    requires size { length seen.old.items ≡ length back.now }
    requires one { (p q r : ℕ) → spec_step back.now p ≡ Some r → spec_step back.now q ≡ Some r → p ≡ q }
    requires inside { (p q : ℕ) → spec_step back.now p ≡ Some q → q < length back.now }
    requires closed { (p q : ℕ) → spec_step back.now q ≡ Some p → spec_is_seen seen.old.items p ≡ true
        → spec_is_seen seen.old.items q ≡ true }
    requires led { (q : ℕ) → q < length back.now → spec_is_seen seen.old.items q ≡ false → is_some (spec_step back.now q) ≡ true }
    requires head { (head < length back.now) × (spec_is_seen seen.old.items head ≡ false) }
    ensures round { IfOk result (λ rest. IsRound back.now head rest.items) }
    ensures marked { IfOk result (λ rest. IsMarked (head ∷ rest.items) seen.old.items seen.new.items) }
    ensures closed { OnOk result ((p q : ℕ) → spec_step back.now q ≡ Some p → spec_is_seen seen.new.items p ≡ true
        → spec_is_seen seen.new.items q ≡ true) }
    ensures size { OnOk result (length seen.new.items ≡ length back.now) }
{
    let mut rest = Vec::new(alloc);
    mark(seen, head);
    let mut last = head;
    'round: while let Some(point) = before(back, last, head) {
        rest.push(point)?;
        mark(seen, point);
        last = point;
    }
    Ok(rest)
}

/// A run that leads back to a point, by the other points from the one before that on.
fn round_of(alloc: Global, head: u32, rest: Vec<u32>) -> Result<Vec<u32>, NoMemory>
    ensures { IfOk result (λ run. run.items ≡ head ∷ reverse rest.items) }
{
    let mut run = Vec::new(alloc);
    run.push(head)?;
    let mut rest = rest;
    rest.reverse();
    run.extend_from_slice(&rest)?;
    Ok(run)
}

/// The ways on and the ways back between points.
#[derive(Clone, Copy)]
pub struct Ways<'t> {
    pub next: &'t [Option<u32>],
    pub back: &'t [Option<u32>],
}

/// Adds the run from a point on, where none leads to that.
fn put_path(
    ways: Ways<'_>,
    runs: &mut Runs,
    seen: &mut Vec<bool>,
    point: u32,
) -> Result<(), NoMemory>
    requires ways { AreWays ways.next.now ways.back.now }
    requires inside { point < length ways.next.now }
    requires runs { AreRuns ways.next.now seen.old.items runs.old }
    requires closed { IsClosed ways.next.now seen.old.items }
    ensures runs { OnOk result (AreRuns ways.entry.next.now seen.new.items runs.new) }
    ensures closed { OnOk result (IsClosed ways.entry.next.now seen.new.items) }
    ensures kept { OnOk result (Keeps seen.old.items seen.new.items) }
    ensures put { OnOk result (spec_step ways.entry.back.now point ≡ None → spec_is_seen seen.new.items point ≡ true) }
{
    if let Some(_) = step(ways.back, point) {
        return Ok(());
    }
    if is_seen(seen, point) {
        return Ok(());
    }
    let run = path_from(runs.alloc, ways.next, seen, point)?;
    runs.push(run)
}

/// Adds the runs from points on that none leads to.
fn put_paths(
    ways: Ways<'_>,
    runs: &mut Runs,
    seen: &mut Vec<bool>,
    points: u32,
) -> Result<(), NoMemory>
    requires ways { AreWays ways.next.now ways.back.now }
    requires points { points ≡ length ways.next.now }
    requires runs { AreRuns ways.next.now seen.old.items runs.old }
    requires closed { IsClosed ways.next.now seen.old.items }
    ensures runs { OnOk result (AreRuns ways.entry.next.now seen.new.items runs.new) }
    ensures closed { OnOk result (IsClosed ways.entry.next.now seen.new.items) }
    ensures heads { OnOk result (SeesHeads ways.entry.back.now seen.new.items points) }
{
    'each: for point in 0..points {
        put_path(ways, runs, seen, point)?;
    }
    Ok(())
}

/// Adds the run round a point, where that is in none yet.
fn put_round(
    ways: Ways<'_>,
    runs: &mut Runs,
    seen: &mut Vec<bool>,
    point: u32,
) -> Result<(), NoMemory>
    requires ways { AreWays ways.next.now ways.back.now }
    requires inside { point < length ways.next.now }
    requires runs { AreRuns ways.next.now seen.old.items runs.old }
    requires goes_on { GoesOn ways.next.now seen.old.items }
    requires heads { SeesHeads ways.back.now seen.old.items (length ways.next.now) }
    ensures runs { OnOk result (AreRuns ways.entry.next.now seen.new.items runs.new) }
    ensures goes_on { OnOk result (GoesOn ways.entry.next.now seen.new.items) }
    ensures kept { OnOk result (Keeps seen.old.items seen.new.items) }
    ensures put { OnOk result (spec_is_seen seen.new.items point ≡ true) }
{
    if is_seen(seen, point) {
        return Ok(());
    }
    let rest = way_back(runs.alloc, ways.back, seen, point)?;
    let run = round_of(runs.alloc, point, rest)?;
    runs.push(run)
}

/// Adds the runs round points that are in none yet.
fn put_rounds(
    ways: Ways<'_>,
    runs: &mut Runs,
    seen: &mut Vec<bool>,
    points: u32,
) -> Result<(), NoMemory>
    requires ways { AreWays ways.next.now ways.back.now }
    requires points { points ≡ length ways.next.now }
    requires runs { AreRuns ways.next.now seen.old.items runs.old }
    requires goes_on { GoesOn ways.next.now seen.old.items }
    requires heads { SeesHeads ways.back.now seen.old.items points }
    ensures runs { OnOk result (AreRuns ways.entry.next.now seen.new.items runs.new) }
    ensures all { OnOk result (SeesAll seen.new.items points) }
{
    'each: for point in 0..points {
        put_round(ways, runs, seen, point)?;
    }
    Ok(())
}

/// The longest runs of points, each point in one of them.
pub fn longest_runs(alloc: Global, ways: Ways<'_>, points: u32) -> Result<Runs, NoMemory>
    requires ways { AreWays ways.next.now ways.back.now }
    requires points { points ≡ length ways.next.now }
    ensures longest { IfOk result (λ runs. AreLongest ways.entry.next.now runs) }
    ensures once { IfOk result (λ runs. (p : ℕ) → times_in p runs ≡ bit (nat_lt p points)) }
{
    let mut seen = vec![in alloc; false; points as usize]?;
    let mut runs = Runs::new(alloc);
    put_paths(ways, &mut runs, &mut seen, points)?;
    put_rounds(ways, &mut runs, &mut seen, points)?;
    Ok(runs)
}
