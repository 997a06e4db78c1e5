//! What an expression is found to be: its type, and what it is worth where it is a constant (C11 6.5, 6.6).
ghost use Rattle.std.specs.Prelude.{◌≡◌};
ghost use Rattle.tsa_types_expressions.specs.Found.{found_number, found_null, found_entry, found_result, found_constant};
ghost use Rattle.tsa_tree.specs.types.Constants.{number_value as spec_number_value};
ghost use Rattle.tsa_tree.specs.types.Expressions.{entry_type as spec_entry_type, number_type as spec_number_type};
ghost use Rattle.tsa_tree.specs.types.Expressions.{result_type as spec_result_type};

use tsa_tree::kind::{ExpressionType, Kind};
use tsa_tree::meaning::{Entry, Meaning};
use tsa_tree::number::{Number, Trap};
use tsa_types_operators::{place, single, value};

/// What an expression is as a constant of a global's initialiser, a length, an enumerator or a case (C11 6.6).
#[derive(Clone, Copy)]
pub enum Constant {
    /// Integers worked out, or why there is no value.
    Number(Result<Number, Trap>),
    /// `NULL`.
    Null,
    /// A place of the global of a number, whose indices are constants in range.
    Place(u32),
    /// The address of such a place.
    Address(u32),
    /// It is none.
    Other,
}

/// The type of an expression and what it is as a constant.
#[derive(Clone, Copy)]
pub struct Found {
    pub thing: ExpressionType,
    pub constant: Constant,
}

impl Found {
    /// What an integer constant is worth that has a value.
    pub fn value(self) -> Option<Number>
        ensures { result ≡ found_constant self }
    {
        match self.constant {
            Constant::Number(Ok(number)) => Some(number),
            _ => None,
        }
    }
}

/// What a number is worth; one without a suffix that is no `int` is unsigned (C11 6.4.4.1).
pub fn number_value(value: u32, unsigned: bool) -> Number
    ensures { result ≡ spec_number_value value unsigned }
{
    if unsigned || value >= 0x8000_0000 {
        Number::Unsigned(value)
    } else {
        Number::Int(value as i32)
    }
}

/// The type of a number.
pub fn number_type(value: u32, unsigned: bool) -> ExpressionType
    ensures { result ≡ spec_number_type value unsigned }
{
    let kind = if unsigned { Kind::Unsigned } else { Kind::Int };
    ExpressionType {
        thing: single(kind, false),
        is_place: false,
        is_zero: value == 0,
    }
}

/// A number.
pub fn number(value: u32, unsigned: bool) -> Found
    ensures { result ≡ found_number value unsigned }
{
    Found {
        thing: number_type(value, unsigned),
        constant: Constant::Number(Ok(number_value(value, unsigned))),
    }
}

/// `NULL` (C11 7.19p3).
pub fn null() -> Found
    ensures { result ≡ found_null }
{
    Found {
        thing: value(Kind::Null),
        constant: Constant::Null,
    }
}

/// The type of what a name stands for: a variable is a place, an enumerator a value.
pub fn entry_type(entry: Entry) -> ExpressionType
    ensures { result ≡ spec_entry_type entry }
{
    match entry.meaning {
        Meaning::Global(_) | Meaning::Local(_) | Meaning::Owned => place(entry.thing),
        Meaning::Function(_) => value(Kind::Function),
        Meaning::Constant(_) => value(Kind::Int),
        Meaning::TypeName => value(Kind::Void),
    }
}

/// What a name stands for.
pub fn named(entry: Entry) -> Found
    ensures { result ≡ found_entry entry }
{
    let constant = match entry.meaning {
        Meaning::Global(number) => Constant::Place(number),
        Meaning::Constant(value) => Constant::Number(Ok(Number::Int(value))),
        _ => Constant::Other,
    };
    Found {
        thing: entry_type(entry),
        constant,
    }
}

/// The type of what a call of a function gives.
pub fn result_type(entry: Entry) -> ExpressionType
    ensures { result ≡ spec_result_type entry }
{
    ExpressionType {
        thing: entry.thing,
        is_place: false,
        is_zero: false,
    }
}

/// What a call of a function gives.
pub fn called(entry: Entry) -> Found
    ensures { result ≡ found_result entry }
{
    Found {
        thing: result_type(entry),
        constant: Constant::Other,
    }
}
