//! The row of a unit: its expressions and the points of its bodies as nodes, each in front of its parts.
ghost use Rattle.std.specs.Prelude.{◌≡◌, ◌++◌, ◌∷◌, [], length, slice_get, OnOk, OnErr, IfOk};
ghost use Rattle.tsa_tree.specs.types.Symbols.{symbol_in};
ghost use Rattle.tsa_types_row.specs.Rows.{framed, hole, closed, names_read, op_symbol};

use crate::kept::Kept;
use crate::node::{Node, Op};
use std::alloc::Global;
use std::marker::Model;
use tsa_base::{NoMemory, Span};
use tsa_tree::meaning::Symbol;

/// Nodes in the order of the text, each in front of its parts. Contracts see the list of them.
#[derive(Drop)]
pub struct Row {
    nodes: Vec<Kept>,
}

impl Model for Row {
    ghost use Rattle.std.specs.Prelude.{List};
    ghost use Rattle.tsa_types_row.specs.declared.node.Node.{Node};

    ghost Value = { List Node };

    ghost view = { λ row. row.nodes.items };
}

/// What a name at a node means; a node that isn't one bears none.
fn op_meaning(op: Op) -> Option<Symbol>
    ensures { result ≡ op_symbol op }
{
    match op {
        Op::Name { symbol, .. } | Op::Callee(symbol) => symbol,
        Op::Declared(symbol) => Some(symbol),
        _ => None,
    }
}

impl Row {
    /// No nodes. No memory is taken.
    pub fn new(alloc: Global) -> Row
        ensures { result ≡ [] }
    {
        Row {
            nodes: Vec::new(alloc),
        }
    }

    /// The allocator that the nodes are kept by.
    fn allocator(&self) -> Global {
        *self.nodes.allocator()
    }

    /// How many nodes there are.
    pub fn len(&self) -> usize
        ensures { result ≡ length self.now }
    {
        self.nodes.len()
    }

    /// The node of a number.
    pub fn get(&self, at: usize) -> Option<Node>
        ensures { result ≡ slice_get self.now at }
    {
        match self.nodes.get(at) {
            Some(kept) => Some(kept.whole()),
            None => None,
        }
    }

    /// What the first name means that begins where a span does, if it ends there too. It goes along the row.
    #[tactic(auto, using(crate::proofs::RowNames::reading))]
    pub fn symbol_at(&self, span: Span) -> Option<Symbol>
        ensures { result ≡ symbol_in (names_read self.now) span }
    {
        'each: for node in &self.nodes {
            if let Some(symbol) = op_meaning(node.op()) {
                let found = node.span();
                if found.from == span.from {
                    return if found.to == span.to {
                        Some(symbol)
                    } else {
                        None
                    };
                }
            }
        }
        None
    }

    /// Puts a node that has no parts.
    pub fn leaf(&mut self, node: Node) -> Result<(), NoMemory>
        ensures put { OnOk result (self.new ≡ self.old ++ framed node []) }
        ensures refused { OnErr result (self.new ≡ self.old) }
    {
        let kept = Kept::new(self.allocator(), &node, 1)?;
        self.nodes.push(kept)?;
        Ok(())
    }

    /// Makes room for a node in front of its parts: its number.
    pub fn open(&mut self) -> Result<usize, NoMemory>
        ensures number { IfOk result (λ at. at ≡ length self.old) }
        ensures put { OnOk result (self.new ≡ self.old ++ hole ∷ []) }
        ensures refused { OnErr result (self.new ≡ self.old) }
    {
        let at = self.nodes.len();
        self.nodes.push(Kept::hole())?;
        Ok(at)
    }

    /// Puts a node into its room, in front of the parts that came since.
    pub fn close(&mut self, at: usize, node: Node) -> Result<(), NoMemory>
        ensures put { OnOk result (self.new ≡ closed at node self.old) }
        ensures refused { OnErr result (self.new ≡ self.old) }
    {
        let size = self.nodes.len().saturating_sub(at);
        let kept = Kept::new(self.allocator(), &node, size)?;
        if let Some(room) = self.nodes.get_mut(at) {
            *room = kept;
        }
        Ok(())
    }

    /// Moves the nodes of another row behind its own. A refused call may have moved the first of them.
    pub fn append(&mut self, other: &mut Row) -> Result<(), NoMemory>
        ensures { OnOk result (self.new ≡ self.old ++ other.old) }
    {
        self.nodes.append(&mut other.nodes)?;
        Ok(())
    }
}
