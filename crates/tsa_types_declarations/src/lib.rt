//! Declarations of types and of globals are typed (C11 6.7): what is wrong with them, what is known after each, and their rows.
#![tactic(auto)]

mod aliases;
mod declarations;
mod enumerators;
mod globals;
mod initialisers;
mod parts;
mod structs;

pub use aliases::{a_type_name, declare_alias};
pub use declarations::{Typing, judge_type};
pub use enumerators::{count_on, declare_enum, enumerator_entry, int_value};
pub use globals::declare_global;
pub use initialisers::initialiser;
pub use structs::declare_struct;
