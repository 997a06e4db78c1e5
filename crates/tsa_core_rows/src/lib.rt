//! What rows of nodes say: they read as the core program.
#![tactic(auto)]

mod laws;

pub use laws::{
    all_bodies_are_read, bodies_are_read, bodies_have_names, bodies_stand_as_written,
    expressions_are_read, locals_are_read, nodes_are_as_written, points_are_read,
    rows_are_read_as_written, stable_locals_are_read, units_are_read,
};
