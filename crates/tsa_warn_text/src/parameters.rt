//! What the parameters of a function are named.
ghost use Rattle.std.specs.Prelude.{◌≡◌, map, IfOk};
ghost use Rattle.tsa_path.specs.Labels.{label};
ghost use Rattle.tsa_rules.specs.Legends as legends;
ghost use Rattle.tsa_tree.specs.declarations.Shapes.{param_shape, param_shapes};
ghost use Rattle.tsa_tree.specs.types.DeclaredTypes.{thing_type};

use crate::labels::label_of;
use tsa_base::NoMemory;
use tsa_path::Named;
use tsa_place_layout::declared_thing;
use tsa_tree::item::Param;
use tsa_types_scope::Scope;

/// The name of a parameter: that of the body, or that of the first declaration where the body has none.
fn param_name<'a>(in_body: &Param<'a>, first: &Param<'a>) -> &'a [u8]
    ensures { result.now ≡ legends.param_name (param_shape in_body.now).name (param_shape first.now).name }
{
    match (in_body.name, first.name) {
        (Some(name), _) => name.text,
        (None, Some(name)) => name.text,
        (None, None) => &[],
    }
}

/// What a parameter is named, with the struct that it is in the body or points to.
fn param_label<'a>(
    scope: &Scope<'_>,
    in_body: &Param<'a>,
    first: &Param<'a>,
) -> Result<Named<'a>, NoMemory>
    ensures { IfOk result (λ named. label named
        ≡ legends.label (legends.param_name (param_shape in_body.now).name (param_shape first.now).name)
        (thing_type scope.now (param_shape in_body.now).ctype).kind) }
{
    let kind = declared_thing(scope, &in_body.ctype)?.kind;
    Ok(label_of(param_name(in_body, first), kind))
}

/// What the parameters of a body are named, in order: as the body names them, and as the first declaration does where the body doesn't.
pub fn param_names<'a>(
    scope: &Scope<'_>,
    in_body: &[Param<'a>],
    first: &[Param<'a>],
) -> Result<Vec<Named<'a>>, NoMemory>
    ensures { IfOk result (λ names. map label names.items ≡ legends.param_labels scope.now (param_shapes in_body.now)
        (param_shapes first.now)) }
{
    let mut names = Vec::new(scope.allocator());
    'each: for (param, at_first) in in_body.iter().zip(first) {
        names.push(param_label(scope, param, at_first)?)?;
    }
    Ok(names)
}
