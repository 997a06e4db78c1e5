//! The statements of bodies are typed (C11 6.8): what is wrong with them, and what their names mean.
#![tactic(auto)]

mod leaves;
mod statements;
mod walk;

pub use walk::Walk;
