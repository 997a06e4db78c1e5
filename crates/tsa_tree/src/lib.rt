//! The syntax tree of a unit in the arena, the grammar that spells it, and what the grammar sees of a token.
#![tactic(auto)]

pub mod attr;
pub mod decl;
pub mod expr;
mod functions;
pub mod item;
pub mod kind;
mod laws;
pub mod meaning;
pub mod number;
mod parsed;
pub mod premise;
pub mod sign;
pub mod stmt;

pub use laws::{
    attributes_are_as_written, attributes_have_an_answer, declarations_are_as_written,
    declarations_have_an_answer, expressions_are_as_written, first_pieces_begin,
    first_pieces_begin_attributes, first_pieces_begin_declarations, first_pieces_begin_statements,
    first_pieces_begin_units, names_stand_apart, nodes_rise, one_answer_is_right,
    one_declaration_is_spelled, one_list_of_attributes_is_spelled, one_statement_is_spelled,
    one_tree_is_spelled, one_unit_is_spelled, points_are_as_written, rows_are_productions,
    rows_of_attributes_are_productions, rows_of_declarations_are_productions,
    rows_of_statements_are_productions, rows_of_units_are_productions, spans_lie_in_text,
    statements_are_as_written, the_first_failing_node_is_told, types_are_as_written,
    units_are_as_written, units_have_an_answer, what_is_refused_is_no_unit,
    what_is_sound_can_be_spelled, what_is_well_read_is_sound, what_runs_is_as_written,
};
pub use parsed::Parsed;
