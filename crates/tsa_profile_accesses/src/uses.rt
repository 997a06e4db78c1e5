//! What is found of an expression, from the last part to the first.
ghost use Rattle.std.specs.Prelude.{◌≡◌, None, []};
ghost use Rattle.tsa_profile_accesses.specs.Premises.{or_else, told};

use crate::access::Accesses;
use crate::premise::{Failure, ProfileCode};
use std::alloc::Global;
use tsa_base::Span;

/// The accesses that were found, and the first premise that fails.
#[derive(Drop)]
pub struct Uses {
    pub accesses: Accesses,
    pub failure: Option<Failure>,
}

impl Uses {
    /// None. No memory is taken.
    pub fn new(alloc: Global) -> Uses
        ensures { result ≡ record { accesses = []; failure = None } }
    {
        Uses {
            accesses: Accesses::new(alloc),
            failure: None,
        }
    }

    /// None so far, in some room.
    pub fn within(room: Accesses) -> Uses
        ensures { result ≡ record { accesses = room; failure = None } }
    {
        Uses {
            accesses: room,
            failure: None,
        }
    }

    /// What fails at a node, where something does, comes before what was found.
    pub fn tell(&mut self, code: Option<ProfileCode>, span: Span)
        ensures accesses { self.new.accesses ≡ self.old.accesses }
        ensures failure { self.new.failure ≡ or_else (told span code) self.old.failure }
    {
        if let Some(code) = code {
            self.failure = Some(Failure { code, span });
        }
    }
}
