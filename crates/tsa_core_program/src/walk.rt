//! A walk along the row of a unit.
ghost use Rattle.std.specs.Prelude.{◌≡◌, ◌<◌, ◌+◌, false, drop, length, slice_set, option_to_list, OnOk};
ghost use Rattle.tsa_core_program.specs.Walks.{count_at, outset, headed, begun, pointed, declared, with_flags, flagged, closed, ended, walk_node, walk_behind, lists_of};
ghost use Rattle.tsa_core_rows.specs.Reading.{first_changes};
ghost use Rattle.tsa_core_rows.specs.Stretches.{is_point as spec_is_point};

use crate::lists::Lists;
use crate::ranges::{Begin, BodyRange, Range};
use std::alloc::Global;
use std::marker::Model;
use tsa_base::NoMemory;
use tsa_tree::kind::Kind;
use tsa_tree::meaning::Symbol;
use tsa_types_row::{Node, Op, Row};

/// What was found along a row: the bodies behind which it has come, and of the one that it stands in where that began and which of its
/// locals didn't change yet. Contracts see the lists: 184 bytes.
#[derive(Drop)]
pub struct Walk {
    alloc: Global,
    counts: Vec<usize>,
    function: u32,
    begin: Option<Begin>,
    flags: Vec<bool>,
    bodies: Vec<BodyRange>,
    kinds: Vec<Kind>,
    stable: Vec<bool>,
    points: Vec<usize>,
}

impl Model for Walk {
    ghost use Rattle.tsa_core_program.specs.Walks.{Walked};

    ghost Value = { Walked };

    ghost view = { λ w. record {
      counts = w.counts.items;
      function = w.function;
      begin = w.begin;
      flags = w.flags.items;
      bodies = w.bodies.items;
      kinds = w.kinds.items;
      stable = w.stable.items;
      points = w.points.items;
    } };
}

/// Whether a node is a point.
fn is_point(op: Op) -> bool
    ensures { result ≡ spec_is_point op }
{
    match op {
        Op::Declare { .. }
        | Op::Evaluate
        | Op::Set(_)
        | Op::Test { .. }
        | Op::Branch
        | Op::Move
        | Op::Give { .. }
        | Op::End => true,
        _ => false,
    }
}

impl Walk {
    /// Nothing, where so many parameters come before each body.
    pub fn new(alloc: Global, counts: Vec<usize>) -> Walk
        ensures { result ≡ outset counts.items }
    {
        Walk {
            alloc,
            counts,
            function: 0,
            begin: None,
            flags: Vec::new(alloc),
            bodies: Vec::new(alloc),
            kinds: Vec::new(alloc),
            stable: Vec::new(alloc),
            points: Vec::new(alloc),
        }
    }

    /// How many parameters come before the body that is next.
    fn count(&self) -> usize
        ensures { result ≡ count_at self.now.counts (length self.now.bodies) }
    {
        match self.counts.get(self.bodies.len()) {
            Some(count) => *count,
            None => 0,
        }
    }

    /// The head of a function stands before its body.
    fn head(&mut self, op: Op)
        ensures { self.new ≡ headed op self.old }
    {
        if let Op::Declared(Symbol::Function(number)) = op {
            self.function = number;
        }
    }

    /// A body begins, unless one is begun: no parameter has changed.
    fn open(&mut self, at: usize) -> Result<(), NoMemory>
        ensures { OnOk result (self.new ≡ begun self.old.begin at self.old) }
    {
        if let Some(_) = self.begin {
            return Ok(());
        }
        self.flags = vec![in self.alloc; true; self.count()]?;
        self.begin = Some(Begin {
            node: at,
            kinds: self.kinds.len(),
            points: self.points.len(),
        });
        Ok(())
    }

    /// A point stands in a body.
    fn point(&mut self, at: usize, op: Op) -> Result<(), NoMemory>
        ensures { OnOk result (self.new ≡ pointed (spec_is_point op) at self.old) }
    {
        if !is_point(op) {
            return Ok(());
        }
        self.open(at)?;
        self.points.push(at)?;
        Ok(())
    }

    /// A local is declared.
    fn declare(&mut self, node: Node) -> Result<(), NoMemory>
        ensures { OnOk result (self.new ≡ declared node.op node.thing.thing.kind self.old) }
    {
        if let Op::Declare { .. } = node.op {
            self.kinds.push(node.thing.thing.kind)?;
        }
        Ok(())
    }

    /// The local of a number changes.
    fn unset(&mut self, number: usize)
        ensures { self.new ≡ with_flags (slice_set self.old.flags number false) self.old }
    {
        if let Some(flag) = self.flags.get_mut(number) {
            *flag = false;
        }
    }

    /// What the left side of an assignment begins with changes, where it is a local.
    fn change(&mut self, left: Option<Node>)
        ensures { self.new ≡ with_flags (first_changes self.old.flags (option_to_list left)) self.old }
    {
        if let Some(node) = left {
            if let Op::Name {
                symbol: Some(Symbol::Local { number, .. }),
                ..
            } = node.op
            {
                self.unset(number as usize);
            }
        }
    }

    /// A local begins, or one changes.
    fn flag(&mut self, op: Op, next: Option<Node>) -> Result<(), NoMemory>
        ensures { OnOk result (self.new ≡ flagged op (option_to_list next) self.old) }
    {
        match op {
            Op::Declare { .. } => self.flags.push(true)?,
            Op::Set(_) => self.change(next),
            _ => {}
        }
        Ok(())
    }

    /// The body ends that began at a node.
    fn close(&mut self, at: usize, begin: Begin) -> Result<(), NoMemory>
        requires small { at < 18446744073709551615 }
        ensures { OnOk result (self.new ≡ closed at begin self.old) }
    {
        let from = self.stable.len();
        self.stable.extend_from_slice(&self.flags)?;
        self.bodies.push(BodyRange {
            function: self.function,
            nodes: Range {
                from: begin.node,
                to: at + 1,
            },
            kinds: Range {
                from: begin.kinds,
                to: self.kinds.len(),
            },
            stable: Range {
                from,
                to: self.stable.len(),
            },
            points: Range {
                from: begin.points,
                to: self.points.len(),
            },
        })?;
        self.begin = None;
        Ok(())
    }

    /// A body ends.
    fn end(&mut self, at: usize, op: Op) -> Result<(), NoMemory>
        requires small { at < 18446744073709551615 }
        ensures { OnOk result (self.new ≡ ended op at self.old) }
    {
        match (op, self.begin) {
            (Op::End, Some(begin)) => self.close(at, begin),
            _ => Ok(()),
        }
    }

    /// One node, with the one behind it, where there is one.
    fn note(&mut self, at: usize, node: Node, next: Option<Node>) -> Result<(), NoMemory>
        requires small { at < 18446744073709551615 }
        ensures { OnOk result (self.new ≡ walk_node at node (option_to_list next) self.old) }
    {
        self.head(node.op);
        self.point(at, node.op)?;
        self.declare(node)?;
        self.flag(node.op, next)?;
        self.end(at, node.op)
    }

    /// The node of a number in a row: what is found along it and behind it is found behind it.
    fn step(&mut self, row: &Row, at: usize) -> Result<(), NoMemory>
        requires inside { at < length row.now }
        requires small { at < 18446744073709551615 }
        ensures { OnOk result (walk_behind (at + 1) self.new (drop (at + 1) row.now) ≡ walk_behind at self.old (drop at row.now)) }
    {
        match row.get(at) {
            Some(node) => {
                self.note(at, node, row.get(at + 1))?;
                Ok(())
            }
            None => Ok(()),
        }
    }

    /// All nodes of a row.
    pub fn along(&mut self, row: &Row) -> Result<(), NoMemory>
        ensures { OnOk result (self.new ≡ walk_behind 0 self.old row.now) }
    {
        'nodes: for at in 0..row.len() {
            self.step(row, at)?;
        }
        Ok(())
    }

    /// The lists that it leaves.
    pub fn into_lists(self) -> Lists
        ensures { result ≡ lists_of self }
    {
        Lists {
            bodies: self.bodies,
            kinds: self.kinds,
            stable: self.stable,
            points: self.points,
        }
    }
}
