//! The parts of a view that are told by paths: the kinds of the locks to which they lead, and what the function's own attributes say of
//! them.
ghost use Rattle.std.specs.Prelude.{◌≡◌, None, [], IfOk};
ghost use Rattle.tsa_rules_view.specs.Kinds.{kinds_of as spec_kinds};
ghost use Rattle.tsa_rules_table.specs.Notes.{IsRow};
ghost use Rattle.tsa_path.specs.PathTables.{AreDifferent};
ghost use Rattle.tsa_tree.specs.declarations.Shapes.{param_shape, param_shapes};
ghost use Rattle.tsa_tree.specs.types.DeclaredTypes.{thing_type};
ghost use Rattle.tsa_rules_view.specs.Parts.{kinds_along, param_kinds as spec_param_kinds};

use crate::{Leads, LockKind, kind_at};
use std::alloc::Global;
use tsa_base::NoMemory;
use tsa_place_layout::declared_thing;
use tsa_profile_accesses::NamedLock;
use tsa_rules_table::{Marks, Numbers};
use tsa_tree::item::Param;
use tsa_tree::kind::Kind;
use tsa_types_scope::Scope;

/// The kind of a parameter.
fn param_kind(scope: &Scope<'_>, param: &Param<'_>) -> Result<Kind, NoMemory>
    ensures { IfOk result (λ kind. kind ≡ (thing_type scope.now (param_shape param.now).ctype).kind) }
{
    Ok(declared_thing(scope, &param.ctype)?.kind)
}

/// The kinds of parameters, in order.
pub fn param_kinds(scope: &Scope<'_>, params: &[Param<'_>]) -> Result<Vec<Kind>, NoMemory>
    ensures { IfOk result (λ kinds. kinds.items ≡ spec_param_kinds scope.now (param_shapes params.now)) }
{
    let mut kinds = Vec::new(scope.allocator());
    'each: for param in params {
        kinds.push(param_kind(scope, param)?)?;
    }
    Ok(kinds)
}

/// What the attributes of a function itself say of its paths, in one row.
pub fn own_marks(alloc: Global, numbers: &mut Numbers, own: &[NamedLock]) -> Result<Marks, NoMemory>
    ensures row { IfOk result (λ marks. AreDifferent numbers.old → IsRow numbers.old marks 0 own.now [] [] None) }
    ensures numbers { numbers.new ≡ numbers.old }
{
    let mut marks = Marks::new(alloc);
    marks.begin_row(1);
    marks.note_own(numbers, own)?;
    Ok(marks)
}

/// The kinds of the locks to which paths lead, by the kinds of a unit's structs.
#[tactic(auto, using(crate::proofs::PathKinds::kinds_on, crate::proofs::PathKinds::kinds_end))]
pub fn kinds_of<'a>(
    alloc: Global,
    numbers: &Numbers,
    leads: Leads<'_>,
    kinds: &[Option<LockKind<'a>>],
) -> Result<Vec<Option<LockKind<'a>>>, NoMemory>
    ensures { IfOk result (λ found. spec_kinds found.items ≡ kinds_along (spec_kinds kinds.now) leads.entry.layout.now
        leads.entry.locals.now numbers.now) }
{
    let mut found = Vec::new(alloc);
    'each: for number in 0..numbers.len() {
        let Some(path) = numbers.path(number) else {
            return Ok(found);
        };
        found.push(kind_at(kinds, leads.structure(path)))?;
    }
    Ok(found)
}
