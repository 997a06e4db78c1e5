//! The core program: what rules, machine and proofs speak of. It has resolved terms, and no names, spans or tokens.
#![tactic(auto)]

mod laws;

pub use laws::{
    accesses_are_the_loads, bodies_agree, bodies_begin_below, cases_differ, cases_stand_apart,
    control_is_as_written, edges_are_followed, edges_stay_inside, functions_are_numbered,
    large_units_have_their_places, loads_are_cells, locals_are_listed, outcomes_are_of_the_actions,
    points_are_as_written, points_are_those_of_the_text, points_go_on, points_have_their_kinds,
    points_speak_of_known, programs_are_as_written, programs_are_well_kinded, scopes_belong,
    terms_have_their_kinds, terms_have_their_types, uses_are_as_written, uses_stand_beside_points,
};
