//! What is seen of an expression on the way to its cells: what it is, where it leads and its guards, the locks that functions name, and
//! where a call may stand (C11 6.5).
#![tactic(auto)]

mod access;
mod arguments;
mod body;
mod expressions;
mod footprint;
mod guards;
mod locks;
mod operators;
mod premise;
mod standing;
mod thing;
mod uses;

pub use access::{Access, Accesses};
pub use body::Body;
pub use expressions::{Seen, path_of};
pub use footprint::Footprint;
pub use guards::{add_owned, copies};
pub use locks::{NamedLock, NamedLocks, are_some, lack_a_path};
pub use operators::{Operator, Sides, code_if, is_truth, operator_at};
pub use premise::{Failure, ProfileCode};
pub use standing::Standing;
pub use thing::{
    Thing, binary_thing, called_thing, is_loaded, member_thing, named_thing, prefix_thing,
    value_thing,
};
pub use tsa_place_layout::declared_thing;
pub use uses::Uses;
