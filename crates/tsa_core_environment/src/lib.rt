//! What is known behind the items of a typed unit and inside its functions, and which locals of each body never change (C11 6.2.1, 6.9).
#![tactic(auto)]

mod bodies;
mod heads;
mod items;
mod laws;
mod members;
mod table;

pub use bodies::Bodies;
pub use heads::{Outside, enter, know_head, leave};
pub use items::{begin_global, know_alias, know_enum, know_item};
pub use laws::scopes_are_those_of_the_unit;
pub use members::{end_struct, know_member, know_struct};
