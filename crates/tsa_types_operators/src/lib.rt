//! The rules of operands and operators on types, and the arithmetic of integers (C11 6.2.5, 6.3, 6.5).
#![tactic(auto)]

mod arithmetic;
mod kinds;
mod operators;
mod values;

pub use arithmetic::{operate, operate_prefix, truth};
pub use kinds::{is_integer_kind, is_pointer_kind, structure_of, target_of};
pub use operators::{binary_type, breaks_binary, breaks_index, breaks_prefix, prefix_type};
pub use values::{
    comparable, element_type, goes_to, is_array, is_integer, is_pointer, is_scalar,
    is_struct_place, is_unsigned, place, single, struct_of, target, value,
};
