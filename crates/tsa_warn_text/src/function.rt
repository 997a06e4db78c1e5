//! The names that a function sees.
ghost use Rattle.std.specs.Prelude.{map};
ghost use Rattle.tsa_path.specs.Labels.{label};
ghost use Rattle.tsa_rules.specs.Legends.{names_in};

use crate::labels::label_of_part;
use tsa_path::{Named, PathNames};
use tsa_place_layout::Layout;
use tsa_place_model::Holder;

/// The names of globals and members by the layout of a unit, and those of the locals of one of its functions.
#[derive(Clone, Copy)]
pub struct FunctionNames<'w, 'a> {
    pub layout: &'w Layout<'w>,
    pub locals: &'w [Named<'a>],
}

impl<'w, 'a> PathNames for FunctionNames<'w, 'a> {
    ghost names = { λ f. names_in f.layout.now (map label f.locals.now) };

    /// What a global is named.
    fn global(&self, number: u32) -> Option<Named<'_>> {
        let part = self.layout.part(Holder::Global(number))?;
        Some(label_of_part(part))
    }

    /// What a local is named.
    #[tactic(auto, using(tsa_core::proofs::MappedLists::map_at))]
    fn local(&self, number: u32) -> Option<Named<'_>> {
        self.locals.get(number as usize).copied()
    }

    /// What a member of a struct is named.
    fn member(&self, structure: u32, number: u32) -> Option<Named<'_>> {
        let part = self.layout.member_part(structure, number)?;
        Some(label_of_part(part))
    }

    /// No guard is written with these names, so that no struct has it.
    fn owner(&self) -> Option<u32> {
        None
    }
}
