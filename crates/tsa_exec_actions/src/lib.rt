//! What threads of the machine do to locks, action by action: how holds at a call are kept, and what a return is judged by.
#![tactic(auto)]

mod action;
mod laws;

pub use action::Action;
pub use laws::{
    actions_are_as_written, calls_are_places_in_the_list, holds_are_kept_by_actions,
    returns_are_judged_by_actions,
};
