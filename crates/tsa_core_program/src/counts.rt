//! How many parameters the functions with bodies have.
ghost use Rattle.std.specs.Prelude.{◌≡◌, ◌++◌, length, IfOk, OnOk};
ghost use Rattle.tsa_core_program.specs.Walks.{counts_by, counts_in};
ghost use Rattle.tsa_tree.specs.units.Shapes.{function_shape, item_shape, item_shapes};

use std::alloc::Global;
use tsa_base::NoMemory;
use tsa_tree::item::{FnTree, Item};

/// Counts the parameters of a function that has a body.
fn count_function(counts: &mut Vec<usize>, function: &FnTree<'_>) -> Result<(), NoMemory>
    ensures { OnOk result (counts.new.items ≡ counts.old.items ++ counts_by (function_shape function.now)) }
{
    if let Some(_) = function.body {
        counts.push(function.params.len())?;
    }
    Ok(())
}

/// Counts the parameters of an item that is a function with a body.
fn count_item(counts: &mut Vec<usize>, item: &Item<'_>) -> Result<(), NoMemory>
    ensures { OnOk result (counts.new.items ≡ counts.old.items ++ counts_by (item_shape item.now)) }
{
    match item {
        Item::Function(function) => count_function(counts, function),
        _ => Ok(()),
    }
}

/// How many parameters the function of each body has, in order of the text.
pub fn counts_of(alloc: Global, items: &[Item<'_>]) -> Result<Vec<usize>, NoMemory>
    ensures { IfOk result (λ counts. counts.items ≡ counts_in (item_shapes items.now)) }
{
    let mut counts = Vec::new(alloc);
    'each: for item in items {
        count_item(&mut counts, item)?;
    }
    Ok(counts)
}
