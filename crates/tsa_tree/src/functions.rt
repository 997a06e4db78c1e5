//! The functions of a unit by number, and how many points each has.
ghost use Rattle.std.specs.Prelude.{◌≡◌, ◌<◌, ◌^◌, length, option_copied};
ghost use Rattle.std.specs.List.{list_any};
ghost use Rattle.tsa_tree.specs.units.Functions.{bears, definition_of, first_of, function_of, functions_in};

use crate::item::{FnTree, Item, UnitTree};

impl<'a> FnTree<'a> {
    /// How many points the function has: none without a body.
    pub fn count(&self) -> u32
        requires { length self.now.points.now < 2 ^ 32 }
        ensures { result ≡ length self.now.points.now }
    {
        self.points.len() as u32
    }
}

impl<'a> UnitTree<'a> {
    /// The function of a number: functions are numbered from 0 in the order of their first declarations. It is the one with
    /// the body, or the first declaration where none has a body. No memory is taken.
    pub fn function(&self, number: u32) -> Option<&'a FnTree<'a>>
        ensures { option_copied result ≡ function_of self.now.items.now number }
    {
        let first = first_declaration(self.items, number)?;
        Some(definition(self.items, first))
    }
}

/// Whether a function of a name is among some items.
#[tactic(auto, using(crate::proofs::units::FunctionLaws::names))]
fn is_declared(items: &[Item<'_>], name: &[u8]) -> bool
    ensures { result ≡ list_any (bears name.now) (functions_in items.now) }
{
    'items: for item in items {
        if let Item::Function(function) = item {
            if function.name.text == name {
                return true;
            }
        }
    }
    false
}

/// The first declaration of the function of a number.
#[tactic(auto, using(crate::proofs::units::FunctionLaws::firsts))]
fn first_declaration<'a>(items: &'a [Item<'a>], number: u32) -> Option<&'a FnTree<'a>>
    ensures { option_copied result ≡ first_of items.entry.now number }
{
    let mut left = number;
    'items: for (at, item) in items.iter().enumerate() {
        let Item::Function(function) = item else {
            continue;
        };
        if is_declared(&items[..at], function.name.text) {
            continue;
        }
        if left == 0 {
            return Some(function);
        }
        left -= 1;
    }
    None
}

/// The function with a body that bears the name of a declaration, or the declaration where there is none.
#[tactic(auto, using(crate::proofs::units::FunctionLaws::bodies))]
fn definition<'a>(items: &'a [Item<'a>], first: &'a FnTree<'a>) -> &'a FnTree<'a>
    ensures { result.now ≡ definition_of items.entry.now first.entry.now }
{
    'items: for item in items {
        if let Item::Function(function) = item {
            if function.body.is_some() && function.name.text == first.name.text {
                return function;
            }
        }
    }
    first
}
