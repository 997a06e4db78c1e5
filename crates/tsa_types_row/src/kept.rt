//! Nodes as a row keeps them.
ghost use Rattle.std.specs.Prelude.{◌≡◌, IfOk};
ghost use Rattle.tsa_types_row.specs.Rows.{hole, sized};

use crate::node::{Node, Op};
use crate::short::{Form, ShortNode, ShortOp, ShortType};
use crate::shortening::short_node;
use std::alloc::Global;
use std::marker::Model;
use tsa_base::{NoMemory, Span};

/// A node in few bytes, or apart where something of it is large.
#[derive(Drop)]
pub(crate) enum Written {
    Short(ShortNode),
    Long(Box<Node>),
}

/// A node in 32 bytes. Contracts see the node.
#[derive(Drop)]
pub(crate) struct Kept {
    written: Written,
}

impl Model for Kept {
    ghost use Rattle.tsa_types_row.specs.declared.node.Node.{Node};
    ghost use Rattle.tsa_types_row.specs.KeptNodes.{whole};

    ghost Value = { Node };

    ghost view = { λ kept. whole kept.written };
}

impl Kept {
    /// A node as it is kept.
    pub(crate) fn new(alloc: Global, node: &Node, size: usize) -> Result<Kept, NoMemory>
        ensures { IfOk result (λ kept. kept ≡ sized size node.now) }
    {
        match short_node(node, size) {
            Some(short) => Ok(Kept {
                written: Written::Short(short),
            }),
            None => Ok(Kept {
                written: Written::Long(Box::new(alloc, node.sized(size))?),
            }),
        }
    }

    /// What stands in front of parts until their node is known.
    pub(crate) fn hole() -> Kept
        ensures { result ≡ hole }
    {
        Kept {
            written: Written::Short(ShortNode {
                op: ShortOp::Aside,
                thing: ShortType::Void(Form {
                    is_const: false,
                    is_place: false,
                    is_zero: false,
                }),
                from: 0,
                length: 0,
                size: 1,
            }),
        }
    }

    /// What it is.
    pub(crate) fn op(&self) -> Op
        ensures { result ≡ self.now.op }
    {
        match &self.written {
            Written::Short(short) => short.op.whole(),
            Written::Long(node) => node.op,
        }
    }

    /// Where it stands.
    pub(crate) fn span(&self) -> Span
        ensures { result ≡ self.now.span }
    {
        match &self.written {
            Written::Short(short) => short.span(),
            Written::Long(node) => node.span,
        }
    }

    /// The node.
    pub(crate) fn whole(&self) -> Node
        ensures { result ≡ self.now }
    {
        match &self.written {
            Written::Short(short) => short.whole(),
            Written::Long(node) => **node,
        }
    }
}
