//! What the profile asks of the points of a body, how many of its locals begin with a try, and the paths of its function.
#![tactic(auto)]

mod calls;
mod judgement;
mod laws;
mod paths;
mod points;
mod premises;

pub use calls::function_called;
pub use judgement::{Judged, attribute_paths};
pub use laws::calls_are_of_the_core;
pub use points::{Around, Spot, calling};
pub use tsa_profile_declarations::{
    Heading, attributes_failure, given_failure, guards_failure, init_failure, named_locks,
};
