//! Initialisers of globals, which no thread works out (C11 6.7.9).
ghost use Rattle.std.specs.Prelude.{◌≡◌, option_map, IfOk};
ghost use Rattle.tsa_profile_declarations.specs.Declarations.{given_init, init_premises, item_premises};
ghost use Rattle.tsa_tree.specs.declarations.Shapes.{init_shape, init_shapes};
ghost use Rattle.tsa_profile_accesses.specs.Premises.{first};
ghost use Rattle.tsa_profile_accesses.specs.NodeAnswers.{view_of};

use tsa_base::NoMemory;
use tsa_profile_accesses::{Body, Failure};
use tsa_profile_guards::place_failure;
use tsa_tree::decl::Init;

/// What fails first in an initialiser. The recursion is as deep as the tree is high.
#[cycle(initialising)]
pub fn init_failure(body: Body<'_, '_>, init: &Init<'_>) -> Result<Option<Failure>, NoMemory>
    ensures { IfOk result (λ failure. failure ≡ first (init_premises (view_of body.entry) (init_shape init.now))) }
{
    match init {
        Init::Value(expr) => place_failure(body, expr),
        Init::List { items, .. } => items_failure(body, items),
    }
}

/// What fails first in the items of a list, in order.
#[cycle(initialising)]
fn items_failure(body: Body<'_, '_>, items: &[Init<'_>]) -> Result<Option<Failure>, NoMemory>
    ensures { IfOk result (λ failure. failure ≡ first (item_premises (view_of body.entry) (init_shapes items.now))) }
{
    'each: for item in items {
        if let Some(failure) = init_failure(body, item)? {
            return Ok(Some(failure));
        }
    }
    Ok(None)
}

/// What fails first in the initialiser of a global that may have one.
pub fn given_failure(
    body: Body<'_, '_>,
    init: &Option<Init<'_>>,
) -> Result<Option<Failure>, NoMemory>
    ensures { IfOk result (λ failure. failure ≡ first (given_init (view_of body.entry) (option_map init_shape init.now))) }
{
    match init {
        Some(init) => init_failure(body, init),
        None => Ok(None),
    }
}
