//! What the profile asks of attributes, initialisers and the heads of functions, each first premise that fails.
#![tactic(auto)]

mod argument;
mod attributes;
mod functions;
mod heads;
mod initialisers;
mod locks;
mod tries;

pub use attributes::{attributes_failure, guards_failure};
pub use functions::is_small;
pub use heads::Heading;
pub use initialisers::{given_failure, init_failure};
pub use locks::named_locks;
pub use tsa_profile_guards::{reads, writes};
