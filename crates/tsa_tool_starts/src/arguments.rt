//! The values of arguments with which threads begin.
ghost use Rattle.std.specs.Prelude.{◌≡◌, List, option_map, IfOk};
ghost use Rattle.tsa_core.specs.Programs.{Attr};
ghost use Rattle.tsa_profile.specs.Arguments.{view_with};
ghost use Rattle.tsa_tool_starts.specs.Starts.{arguments_of};
ghost use Rattle.tsa_tree.specs.expressions.Shapes.{shapes};

use std::alloc::Global;
use tsa_base::{NoMemory, Value};
use tsa_profile::Ending;
use tsa_tree::expr::Expr;
use tsa_tree::kind::ThingType;

/// The values of arguments for parameters of some types, at the end of a unit; none where one can't stand there, or where there are more
/// arguments or fewer.
pub fn values_of(
    alloc: Global,
    ending: Ending<'_, '_>,
    params: &[ThingType],
    args: &[Expr<'_>],
) -> Result<Option<Vec<Value>>, NoMemory>
    ensures { IfOk result (λ values. (attributes : List (List Attr)) → option_map (λ v. v.items) values
        ≡ arguments_of (view_with attributes ending.entry.layout.now ending.entry.scope.now) params.now (shapes args.now)) }
{
    if params.len() != args.len() {
        return Ok(None);
    }
    let mut values = Vec::new(alloc);
    'each: for number in 0..args.len() {
        match ending.value_seen(params[number], &args[number])? {
            Some(value) => values.push(value)?,
            None => return Ok(None),
        }
    }
    Ok(Some(values))
}
