//! The bodies of the functions of a typed unit, by their numbers, with what is known in each.
#![tactic(auto)]

mod control;
mod entries;
mod inside;
mod knowledge;
mod laws;
mod search;

pub use control::{control_of, graph_of};
pub use entries::{enter_body, enter_item, leave_body};
pub use inside::Inside;
pub use knowledge::{Knowledge, outset, pass};
pub use laws::sites_are_of_the_program;
pub use search::{BodySite, site, site_in};
pub use tsa_profile::Fit;
