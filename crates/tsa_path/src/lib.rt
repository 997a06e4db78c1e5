//! Paths as functions and their callers have them (C11 6.5.2.2p4): arguments in the place of parameters, numbers, and texts in C.
#![tactic(auto)]

mod key;
mod laws;
mod names;
mod refusal;
mod set;
mod substitution;
mod table;
mod texts;
mod trail;

pub use key::is_same;
pub use laws::{
    arguments_have_their_paths, locks_are_as_written, paths_are_as_written, paths_are_told_apart,
    paths_keep_their_numbers, substitution_keeps_the_meaning, values_are_as_written,
};
pub use names::{Named, PathNames};
pub use refusal::InternRefusal;
pub use set::PathSet;
pub use substitution::{constant_path, substitute};
pub use table::PathTable;
pub use texts::path_text;
