//! What a statement stands in, and what is wrong with labels and jumps in it (C11 6.8.1, 6.8.4.2, 6.8.6).
ghost use Rattle.std.specs.Prelude.{◌≡◌, ◌∷◌, [], not, is_some, true};
ghost use Rattle.tsa_tree.specs.expressions.Shapes.{name_shape};
ghost use Rattle.tsa_tree.specs.types.Premises.{first};
ghost use Rattle.tsa_tree.specs.types.Statements.{is_elsewhere as spec_is_elsewhere, is_case_again as spec_is_case_again, default_premises};
ghost use Rattle.tsa_tree.specs.types.Statements.{label_premises, goto_premises, break_premises, continue_premises, in_a_loop};
ghost use Rattle.tsa_types_simple.specs.Cases.{case_by};

use std::marker::Model;
use tsa_base::Span;
use tsa_tree::expr::Name;
use tsa_tree::kind::ThingType;
use tsa_tree::number::Number;
use tsa_tree::premise::{Failure, TypeCode};
use tsa_types_expressions::{Found, at, value_of};
use tsa_types_scope::{Cases, Names};

/// The function's number and result, the labels of its body, whether a loop is round a statement, and of the switch round it, where one is,
/// its cases and where its first default stands.
#[derive(Drop)]
pub struct Around<'t, 'a> {
    pub function: u32,
    pub result: ThingType,
    pub labels: &'t Names<'a, u32>,
    pub in_loop: bool,
    pub in_switch: bool,
    pub cases: &'t Cases,
    pub default: Option<u32>,
}

impl<'t, 'a> Model for Around<'t, 'a> {
    ghost use Rattle.tsa_tree.specs.types.Statements.{Around};

    ghost Value = { Around };

    ghost view = { λ a. record { function = a.function; result = a.result; labels = a.labels.now; in_loop = a.in_loop; in_switch = a.in_switch; cases = a.cases.now; default = a.default } };
}

/// Whether the first of its kind stands at another place.
fn is_elsewhere(place: u32, first: Option<u32>) -> bool
    ensures { result ≡ spec_is_elsewhere place first }
{
    match first {
        Some(first) => first != place,
        None => false,
    }
}

/// Whether an earlier case has a value.
fn is_case_again(cases: &Cases, place: u32, value: Option<Number>) -> bool
    ensures { result ≡ spec_is_case_again cases.now place value }
{
    match value {
        Some(number) => is_elsewhere(place, cases.at(number.to_unsigned())),
        None => false,
    }
}

/// The value of a case: where it stands, and what it was found to be.
#[derive(Clone, Copy)]
pub struct Key {
    pub span: Span,
    pub found: Result<Found, Failure>,
}

impl Key {
    ghost use Rattle.tsa_types_simple.specs.Cases.{constant_by};
    ghost use Rattle.tsa_types_expressions.specs.Found.{found_value};

    /// What it is worth, where it is a constant.
    pub fn value(self) -> Option<Number>
        ensures { result ≡ found_value self.found }
    {
        value_of(self.found)
    }

    /// What is wrong with it by itself: what fails in it, or that it is no constant.
    fn failure(self) -> Option<Failure>
        ensures { result ≡ constant_by self.span self.found }
    {
        match self.found {
            Err(failure) => Some(failure),
            Ok(found) => match found.value() {
                Some(_) => None,
                None => Some(at(TypeCode::TY9, self.span)),
            },
        }
    }
}

impl<'t, 'a> Around<'t, 'a> {
    /// The same with a loop round it.
    pub fn in_a_loop(&self) -> Around<'t, 'a>
        ensures { result ≡ in_a_loop self.now }
    {
        Around {
            function: self.function,
            result: self.result,
            labels: self.labels,
            in_loop: true,
            in_switch: self.in_switch,
            cases: self.cases,
            default: self.default,
        }
    }

    /// The same in a switch of these cases: a `break` goes behind it, a `continue` to the loop round it.
    pub fn in_a_switch<'s>(&self, cases: &'s Cases, default: Option<u32>) -> Around<'s, 'a>
    where
        't: 's,
        ensures { result ≡ record {
          function = self.now.function;
          result = self.now.result;
          labels = self.now.labels;
          in_loop =
              self.now.in_loop;
          in_switch = true;
          cases = cases.now;
          default = default;
        } }
    {
        Around {
            function: self.function,
            result: self.result,
            labels: &*self.labels,
            in_loop: self.in_loop,
            in_switch: true,
            cases,
            default,
        }
    }

    /// What is wrong with a case at a span, but for its statement.
    pub fn case_failure(&self, span: Span, key: Key) -> Option<Failure>
        ensures { result ≡ case_by self.now span key }
    {
        if self.in_switch && is_case_again(self.cases, span.from, key.value()) {
            return Some(at(TypeCode::TY2, span));
        }
        if !self.in_switch {
            return Some(at(TypeCode::TY7, span));
        }
        key.failure()
    }

    /// What is wrong with a default at a span, but for its statement.
    #[tactic(auto, unfolding(tsa_tree::specs::types::Statements::default_premises, tsa_tree::specs::types::Premises::first))]
    pub fn default_failure(&self, span: Span) -> Option<Failure>
        ensures { result ≡ first (default_premises self.now span) }
    {
        if self.in_switch && is_elsewhere(span.from, self.default) {
            return Some(at(TypeCode::TY2, span));
        }
        if !self.in_switch {
            return Some(at(TypeCode::TY7, span));
        }
        None
    }

    /// What is wrong with a label at a span, but for its statement.
    #[tactic(auto, unfolding(tsa_tree::specs::types::Statements::label_premises, tsa_tree::specs::types::Premises::first))]
    pub fn label_failure(&self, name: Name<'_>, span: Span) -> Option<Failure>
        ensures { result ≡ first (label_premises self.now (name_shape name.entry) span) }
    {
        if is_elsewhere(span.from, self.labels.get(name.text)) {
            return Some(at(TypeCode::TY2, span));
        }
        None
    }

    /// What is wrong with a `goto` at a span.
    #[tactic(auto, unfolding(tsa_tree::specs::types::Statements::goto_premises, tsa_tree::specs::types::Premises::first))]
    pub fn goto_failure(&self, name: Name<'_>, span: Span) -> Option<Failure>
        ensures { result ≡ first (goto_premises self.now (name_shape name.entry) span) }
    {
        if !self.labels.has(name.text) {
            return Some(at(TypeCode::TY7, span));
        }
        None
    }

    /// What is wrong with a `break` at a span.
    #[tactic(auto, unfolding(tsa_tree::specs::types::Statements::break_premises, tsa_tree::specs::types::Premises::first))]
    pub fn break_failure(&self, span: Span) -> Option<Failure>
        ensures { result ≡ first (break_premises self.now span) }
    {
        if !(self.in_loop || self.in_switch) {
            return Some(at(TypeCode::TY7, span));
        }
        None
    }

    /// What is wrong with a `continue` at a span.
    #[tactic(auto, unfolding(tsa_tree::specs::types::Statements::continue_premises, tsa_tree::specs::types::Premises::first))]
    pub fn continue_failure(&self, span: Span) -> Option<Failure>
        ensures { result ≡ first (continue_premises self.now span) }
    {
        if !self.in_loop {
            return Some(at(TypeCode::TY7, span));
        }
        None
    }
}
