//! The paths of a function with their texts, and the order in which warnings and held sets tell them.
#![tactic(auto)]

mod body;
mod function;
mod held;
mod labels;
mod laws;
mod line;
mod line_laws;
mod locals;
mod name_laws;
mod order;
mod parameters;
mod ranks;
mod rules;
mod text;
mod texts;

pub use body::body_names;
pub use function::FunctionNames;
pub use held::{Held, push_held};
pub use laws::{paths_are_told_in_one_order, ranks_follow_the_order};
pub use line::{Subject, push_warning};
pub use line_laws::members_are_what_sets_have;
pub use locals::declared_names;
pub use name_laws::names_and_kinds_are_the_labels;
pub use parameters::param_names;
pub use texts::PathTexts;
