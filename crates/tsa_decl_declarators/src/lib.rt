//! Reading of locals, and of what declarations are made of, into the arena.
#![tactic(auto)]

mod declarations;
mod declarator;
mod declarators;
mod initialisers;
mod locals;
mod nodes;
mod types;
mod view;

pub use declarations::{Declared, Role, ctype, declared_rest};
pub use declarator::Declarator;
pub use declarators::{Star, declarator_at, star_at};
pub use locals::read_locals;
pub use nodes::{in_arena, in_arena_before, in_arena_read, keep, kept_in, listed};
pub use types::{Specified, specified_at, specifier};
pub use view::{is_close_brace_at, name, open, open_brace, semicolon, tag};
