//! The members of a struct with their guards, in which those before them are known first (C11 6.7.2.1).
ghost use Rattle.std.specs.Prelude.{◌≡◌, ◌++◌, ◌∷◌, [], IfOk, OnOk};
ghost use Rattle.tsa_place_model.specs.Parts.{part_in, whole as spec_whole, member_behind, members_after, parts_behind};
ghost use Rattle.tsa_tree.specs.types.DeclaredTypes.{thing_type};
ghost use Rattle.tsa_tree.specs.declarations.Shapes.{decl_shape, decl_shapes};
ghost use Rattle.tsa_tree.specs.types.Scopes.{with_owned};

use crate::parts::{Part, declared_thing, part_of, whole};
use tsa_base::NoMemory;
use tsa_tree::decl::Decl;
use tsa_tree::kind::ThingType;
use tsa_types_scope::{Names, Scope};

/// A member of a type, with its guards.
fn guarded<'a>(
    scope: &mut Scope<'a>,
    before: &mut Names<'a, ThingType>,
    thing: ThingType,
    decl: &Decl<'a>,
) -> Result<Part, NoMemory>
    ensures part { IfOk result (λ part. thing ≡ spec_whole scope.old (thing_type scope.old (decl_shape decl.now).ctype)
        → part ≡ part_in scope.old (with_owned before.old scope.old) (decl_shape decl.now)) }
    ensures same { scope.new ≡ scope.old }
    ensures same_members { before.new ≡ before.old }
{
    scope.swap_owned(before);
    let part = part_of(scope, thing, decl);
    scope.swap_owned(before);
    part
}

/// A member behind others, which is known by its name from then on.
fn next_member<'a>(
    scope: &mut Scope<'a>,
    before: &mut Names<'a, ThingType>,
    decl: &Decl<'a>,
) -> Result<Part, NoMemory>
    ensures part { IfOk result (λ part. part ≡ part_in scope.old (with_owned before.old scope.old) (decl_shape decl.now)) }
    ensures known { OnOk result (before.new ≡ member_behind scope.old before.old (decl_shape decl.now)) }
    ensures same { OnOk result (scope.new ≡ scope.old) }
{
    let thing = declared_thing(scope, &decl.ctype)?;
    let kept = whole(scope, thing);
    let part = guarded(scope, before, kept, decl)?;
    before.declare(decl.name.text, thing)?;
    Ok(part)
}

/// The members of a struct behind others, each of which is known by its name in the guards after it.
pub fn next_members<'a>(
    scope: &mut Scope<'a>,
    before: &mut Names<'a, ThingType>,
    decls: &[Decl<'a>],
) -> Result<Vec<Part>, NoMemory>
    ensures parts { IfOk result (λ parts. parts.items ≡ parts_behind scope.old before.old (decl_shapes decls.now)) }
    ensures known { OnOk result (before.new ≡ members_after scope.old before.old (decl_shapes decls.now)) }
    ensures same { OnOk result (scope.new ≡ scope.old) }
{
    let mut parts = Vec::new(scope.allocator());
    'each: for decl in decls {
        parts.push(next_member(scope, before, decl)?)?;
    }
    Ok(parts)
}
