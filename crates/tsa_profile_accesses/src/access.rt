//! Cells as they are read and written, in order of the text.
ghost use Rattle.std.specs.Prelude.{◌≡◌, List, [], ◌∷◌, ◌++◌, reverse, OnOk};
ghost use Rattle.tsa_profile_accesses.specs.ExpressionViews.{own_access};

use crate::thing::{Thing, is_loaded};
use std::alloc::Global;
use std::marker::Model;
use tsa_base::{NoMemory, Span};
use tsa_place_model::Path;

/// A cell as it is read or written: where the expression stands that stands for it, and the paths of its guards in order, of which some may
/// have none.
pub struct Access {
    pub span: Span,
    pub is_write: bool,
    pub guards: Vec<Option<Path>>,
}

impl Drop for Access {
    /// Lets its parts go, in one call for all who let one go.
    fn drop(self) {
        let Access {
            span: _,
            is_write: _,
            guards: _,
        } = self;
    }
}

impl Model for Access {
    ghost use Rattle.tsa_profile_accesses.specs.Accesses.{Access};

    ghost Value = { Access };

    ghost view = { λ access. record { span = access.span; is_write = access.is_write; guards = access.guards.items } };
}

/// Accesses that are found from the last to the first. Contracts see them in order of the text.
#[derive(Drop)]
pub struct Accesses {
    pub(crate) from_last: Vec<Access>,
}

impl Model for Accesses {
    ghost use Rattle.std.specs.Prelude.{List, reverse};
    ghost use Rattle.tsa_profile_accesses.specs.Accesses.{Access};

    ghost Value = { List Access };

    ghost view = { λ all. reverse all.from_last.items };
}

impl Accesses {
    /// None. No memory is taken.
    pub fn new(alloc: Global) -> Accesses
        ensures { result ≡ [] }
    {
        Accesses {
            from_last: Vec::new(alloc),
        }
    }

    /// One more in front.
    fn put(&mut self, access: Access) -> Result<(), NoMemory>
        ensures { OnOk result (self.new ≡ access ∷ self.old) }
    {
        self.from_last.push(access)?;
        Ok(())
    }

    /// The access of a thing in front, where that is a cell.
    pub fn put_own(&mut self, thing: Thing, access: Access) -> Result<(), NoMemory>
        ensures { OnOk result (self.new ≡ own_access thing access ++ self.old) }
    {
        if is_loaded(thing) {
            self.put(access)
        } else {
            Ok(())
        }
    }
}
