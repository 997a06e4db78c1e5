//! The profile of a unit: what is asked of it besides its types, so that every lock that it names has a path.
#![tactic(auto)]

mod argument_laws;
mod initialiser_types;
mod items_end;
mod laws;
mod profile;
mod scope_after;
mod unit;
mod unit_end;

pub use argument_laws::{
    arguments_are_as_written, declared_globals_hold_it, parameters_are_those_of_the_core,
    seen_values_are_of_their_types,
};
pub use items_end::{Parameter, Unit};
pub use laws::{
    attributes_are_those_of_the_core, paths_are_those_of_the_core, profiles_are_as_written,
    profiles_are_runnable, start_values_have_their_kinds, starts_are_well_typed,
};
pub use profile::{fit, fit_with};
pub use scope_after::behind_unit;
pub use tsa_profile_items::{Ground, named_locks};
pub use unit::Fit;
pub use unit_end::Ending;
