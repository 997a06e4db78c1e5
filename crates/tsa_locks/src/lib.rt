//! Reader-writer locks: as the machine has them, in definitions and laws, and as a table of locks and threads.
#![tactic(auto)]

mod giving;
mod laws;
mod table;
mod taking;

pub use laws::{
    holds_change_as_taken_and_given, locks_are_taken_where_they_can_be, locks_are_their_holds,
    takings_are_as_written, the_table_is_the_locks, the_table_is_the_state,
};
pub use table::{Giving, LockTable, Owner, Taking};
