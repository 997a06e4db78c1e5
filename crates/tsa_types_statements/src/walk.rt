//! The walk over a unit, with what is known where it stands and the row so far.

use tsa_types_row::Row;
use tsa_types_scope::Scope;

/// What is known where a unit is walked, and the row of what was passed.
#[derive(Drop)]
pub struct Walk<'a> {
    pub scope: Scope<'a>,
    pub row: Row,
}
