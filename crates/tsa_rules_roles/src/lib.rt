//! What the points of a body do for the rules: what a test looks at and which answer it means, and which answer a return gives.
#![tactic(auto)]

mod answers;
mod duty;
mod gist;
mod laws;
mod role_laws;
mod roles;
mod variables;
mod worth;

pub use answers::{Looked, Told, answer_told, test_told};
pub use duty::{Duty, duty_at};
pub use gist::{Gist, gist_at};
pub use laws::{answers_are_as_written, constants_are_as_written, terms_have_the_values};
pub use role_laws::roles_are_of_the_program;
pub use roles::Roles;
pub use worth::Worth;
