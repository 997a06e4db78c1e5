//! What is known in front of an item, and what is found of the items before it.
ghost use Rattle.std.specs.Prelude.{◌≡◌, IfOk};
ghost use Rattle.tsa_profile_accesses.specs.Premises.{or_else as spec_or_else};

use std::marker::Model;
use std::mem::replace;
use tsa_base::NoMemory;
use tsa_path::PathTable;
use tsa_profile_accesses::{Failure, NamedLocks};
use tsa_types_scope::{Scope, outset};

/// What is known by name, the locks that functions name and the paths of bodies by the numbers of functions, and the first functions that
/// pass a limit.
pub struct Knowledge<'a> {
    pub scope: Scope<'a>,
    pub attributes: Vec<NamedLocks>,
    pub tables: Vec<Option<PathTable>>,
    pub tries: Option<Failure>,
    pub paths: Option<Failure>,
}

impl Drop for Knowledge<'_> {
    /// Lets its parts go, in one call for all who let one go.
    fn drop(self) {
        let Knowledge {
            scope: _,
            attributes: _,
            tables: _,
            tries: _,
            paths: _,
        } = self;
    }
}

impl<'a> Model for Knowledge<'a> {
    ghost use Rattle.tsa_profile_context.specs.Judging.{Knowledge};

    ghost Value = { Knowledge };

    ghost view = { λ k. record { here = k.scope; attributes = k.attributes.items; tables = k.tables.items; tries = k.tries; paths = k.paths } };
}

impl<'a> Knowledge<'a> {
    /// The paths of bodies, by the numbers of functions.
    pub fn into_tables(self) -> Vec<Option<PathTable>>
        ensures { result.items ≡ self.entry.tables }
    {
        let Knowledge {
            scope: _,
            attributes: _,
            tables,
            tries: _,
            paths: _,
        } = self;
        tables
    }
}

/// What failed first, or else what fails now.
pub fn or_else(found: Option<Failure>, failure: Option<Failure>) -> Option<Failure>
    ensures { result ≡ spec_or_else found failure }
{
    match found {
        Some(failure) => Some(failure),
        None => failure,
    }
}

/// Takes out what is known by name: nothing is known then.
pub fn take_scope<'a>(scope: &mut Scope<'a>) -> Result<Scope<'a>, NoMemory>
    ensures { IfOk result (λ taken. taken ≡ scope.old) }
{
    let nothing = outset(scope.allocator(), &[])?;
    Ok(replace(scope, nothing))
}

/// Puts back what is known by name.
pub fn put_scope<'a>(scope: &mut Scope<'a>, back: Scope<'a>)
    ensures { scope.new ≡ back.entry }
{
    let _nothing = replace(scope, back);
}
