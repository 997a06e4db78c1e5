//! What all locals of a body are named.
ghost use Rattle.std.specs.Prelude.{◌≡◌, ◌++◌, Some, map, IfOk};
ghost use Rattle.tsa_core.specs.Programs.{Bodied, Declared};
ghost use Rattle.tsa_warn_text.specs.DeclaredNames.{IsBodyOf, declared_texts, labels_with};
ghost use Rattle.tsa_path.specs.Labels.{label};
ghost use Rattle.tsa_rules.specs.Legends.{local_labels, param_labels};
ghost use Rattle.tsa_tree.specs.declarations.Shapes.{head_shape, param_shapes};
ghost use Rattle.tsa_tree.specs.statements.Shapes.{point_shape};

use crate::locals::declared_names;
use crate::parameters::param_names;
use tsa_base::NoMemory;
use tsa_path::Named;
use tsa_tree::item::{FnTree, Param};
use tsa_tree::kind::Kind;
use tsa_types_scope::Scope;

/// What the locals of a function with a body are named by their numbers: its parameters, of which some may be named by the first
/// declaration alone, and then the locals that the body declares, which have these kinds.
pub fn body_names<'a>(
    scope: &Scope<'_>,
    in_body: &FnTree<'a>,
    first: &[Param<'a>],
    kinds: &[Kind],
) -> Result<Vec<Named<'a>>, NoMemory>
    ensures by { IfOk result (λ names. map label names.items
        ≡ param_labels scope.now (head_shape in_body.now).params (param_shapes first.now)
        ++ labels_with (declared_texts (map point_shape in_body.now.points.now)) kinds.now) }
    ensures are { (d : Declared) (b : Bodied) → IsBodyOf scope.now in_body.now (param_shapes first.now) kinds.now d b
        → IfOk result (λ names. map label names.items ≡ local_labels d (Some b)) }
{
    let mut names = param_names(scope, in_body.params, first)?;
    let declared = declared_names(scope.allocator(), in_body.points, kinds)?;
    names.extend_from_slice(&declared)?;
    Ok(names)
}
