//! The control of a body as a graph with longest blocks (C11 6.8).
#![tactic(auto)]

mod arcs;
mod blocks;
mod entries;
mod exits;
mod graph;
mod membership;
mod places;
mod rows;
mod runs;
mod sequence;
mod ways;

pub use blocks::{Graph, GraphBlock};
pub use entries::Edge;
pub use graph::{graph_of_body, graph_of_links};
pub use rows::blocks_of;
pub use runs::{Runs, Ways, longest_runs};
pub use sequence::{Block, Blocks, Exit, Place};
pub use tsa_graph_edges::BodyPoints;
