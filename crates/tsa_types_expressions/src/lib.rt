//! What expressions and written types are in a unit (C11 6.5, 6.7), and what is wrong with them.
#![tactic(auto)]

mod accesses;
mod attributes;
mod constants;
mod declarations;
mod expressions;
mod nodes;
mod refusal;
mod values;
mod verdicts;

pub use accesses::{first_of, function_of, member_type, owner};
pub use constants::{Constant, Found, entry_type, number_type, number_value, result_type};
pub use declarations::{Length, Written, tag_failure, typed_failure};
pub use expressions::View;
pub use nodes::{Mark, bare_node, typed_node};
pub use refusal::{TypeRefusal, judged, refused};
pub use tsa_types_operators::{is_integer_kind, single};
pub use tsa_types_scope::Scope;
pub use values::value_of;
pub use verdicts::{at, thing_of, worked_binary, worked_prefix};
