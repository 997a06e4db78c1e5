//! What members and globals are declared as.
ghost use Rattle.std.specs.Prelude.{◌≡◌, IfOk};
ghost use Rattle.tsa_place_model.specs.Parts.{guard_ways, whole as spec_whole};
ghost use Rattle.tsa_tree.specs.declarations.Shapes.{decl_shape, type_shape};
ghost use Rattle.tsa_tree.specs.types.DeclaredTypes.{thing_type};

use crate::guards::guard_paths;
use std::marker::Model;
use tsa_base::{NoMemory, Span};
use tsa_place_model::Path;
use tsa_place_paths::View;
use tsa_tree::decl::{CType, Decl};
use tsa_tree::kind::{Kind, ThingType};
use tsa_types_row::Row;
use tsa_types_scope::Scope;

/// A member or a global: its name, its type, the paths of its guards in order, of which some may have none, and where its declarator
/// stands.
pub struct Part {
    pub name: Vec<u8>,
    pub thing: ThingType,
    pub guards: Vec<Option<Path>>,
    pub span: Span,
}

impl Drop for Part {
    /// Lets its parts go, in one call for all who let one go.
    fn drop(self) {
        let Part {
            name: _,
            thing: _,
            guards: _,
            span: _,
        } = self;
    }
}

impl Model for Part {
    ghost use Rattle.tsa_place_model.specs.Layouts.{Part};

    ghost Value = { Part };

    ghost view = { λ part. record { name = part.name.items; thing = part.thing; guards = part.guards.items; span = part.span } };
}

/// The type that a declarator gives, where its name isn't known yet.
pub fn declared_thing(scope: &Scope<'_>, ctype: &CType<'_>) -> Result<ThingType, NoMemory>
    ensures { IfOk result (λ thing. thing ≡ thing_type scope.now (type_shape ctype.now)) }
{
    let view = View { scope, function: 0 };
    let mut unheard = Row::new(scope.allocator());
    let written = view.written(&mut unheard, ctype)?;
    Ok(written.thing)
}

/// The same type, but for a struct by value that isn't defined yet, which counts as `int`: types refuse it.
pub fn whole(scope: &Scope<'_>, thing: ThingType) -> ThingType
    ensures { result ≡ spec_whole scope.now thing }
{
    let kind = if scope.is_whole(thing.kind) {
        thing.kind
    } else {
        Kind::Int
    };
    ThingType {
        kind,
        length: thing.length,
        is_const: thing.is_const,
    }
}

/// A member or a global of a type, where what its guards may name is known.
pub fn part_of(scope: &Scope<'_>, thing: ThingType, decl: &Decl<'_>) -> Result<Part, NoMemory>
    ensures { IfOk result (λ part. part ≡ record
        { name = decl.now.name.text.now; thing = thing; guards = guard_ways scope.now (decl_shape decl.now).attrs; span = decl.now.span }) }
{
    let mut name = Vec::new(scope.allocator());
    name.extend_from_slice(decl.name.text)?;
    Ok(Part {
        name,
        thing,
        guards: guard_paths(scope, decl.attrs)?,
        span: decl.span,
    })
}
