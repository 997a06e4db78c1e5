//! How many functions a unit may have, and how many points the body of one.
ghost use Rattle.std.specs.Prelude.{◌≡◌, option_map};
ghost use Rattle.tsa_tree.specs.units.Limits.{past_functions as too_many_functions, past_points as too_many_points};
ghost use Rattle.tsa_tree.specs.units.Shapes.{item_shapes, HaveTheirPoints};
ghost use Rattle.tsa_unit.specs.Functions.{function_in};
ghost use Rattle.tsa_unit.specs.Parsing.{IsWithin};

use tsa_base::{FUNCTION_LIMIT, POINT_LIMIT, Span};
use tsa_expr::{SyntaxCode, SyntaxRefusal};
use tsa_tree::item::{FnTree, Item};

/// The function that an item is, a prototype or one with a body.
fn function<'i, 'a>(item: &'i Item<'a>) -> Option<&'i FnTree<'a>>
    ensures { option_map (λ function. function.now) result ≡ function_in item.now }
{
    match item {
        Item::Function(function) => Some(function),
        Item::Structure(_) | Item::Alias(_) | Item::Enumeration(_) | Item::Global(_) => None,
    }
}

/// Where the name of the first function stands that is one too many.
#[tactic(auto, using(crate::proofs::LimitLaws::functions))]
fn past_functions(items: &Vec<Item<'_>>) -> Option<Span>
    ensures { result ≡ option_map (λ name. name.span) (too_many_functions (item_shapes items.now.items)) }
{
    let mut left = FUNCTION_LIMIT;
    'items: for item in items {
        let Some(function) = function(item) else {
            continue;
        };
        if left == 0 {
            return Some(function.name.span);
        }
        left -= 1;
    }
    None
}

/// Where the name of the first function stands whose body has too many points, its end included.
#[tactic(auto, using(crate::proofs::LimitLaws::points))]
fn past_points(items: &Vec<Item<'_>>) -> Option<Span>
    requires points { HaveTheirPoints items.now.items }
    ensures { result ≡ option_map (λ name. name.span) (too_many_points (item_shapes items.now.items)) }
{
    'items: for item in items {
        let Some(function) = function(item) else {
            continue;
        };
        if function.points.len() > POINT_LIMIT {
            return Some(function.name.span);
        }
    }
    None
}

/// Refuses a function that is one too many, and else one of too many points.
pub fn within_limits(items: &Vec<Item<'_>>) -> Result<(), SyntaxRefusal>
    requires points { HaveTheirPoints items.now.items }
    ensures { IsWithin result (item_shapes items.now.items) }
{
    if let Some(span) = past_functions(items) {
        let code = SyntaxCode::LM5;
        return Err(SyntaxRefusal::Function { code, span });
    }
    if let Some(span) = past_points(items) {
        let code = SyntaxCode::LM3;
        return Err(SyntaxRefusal::Function { code, span });
    }
    Ok(())
}
