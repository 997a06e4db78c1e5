//! To which struct a path leads: along members, elements and pointers, from what its root is (C11 6.5.2, 6.5.3.2).
ghost use Rattle.std.specs.Prelude.{◌≡◌};
ghost use Rattle.tsa_rules_view.specs.Structs.{root_by, struct_by};
ghost use Rattle.tsa_path.specs.WrittenLocks.{struct_in as spec_struct_in};
ghost use Rattle.tsa_rules.specs.Attributes.{member_struct, struct_behind};

use tsa_place_layout::Layout;
use tsa_place_model::{Holder, Path, PathStep, Root};
use tsa_tree::kind::Kind;

/// What paths of a function may lead along: the layout of its unit, and the kinds of its locals, parameters first.
#[derive(Clone, Copy)]
pub struct Leads<'w> {
    pub layout: &'w Layout<'w>,
    pub locals: &'w [Kind],
}

/// The struct that a kind is, or to which it points.
fn struct_in(kind: Kind) -> Option<u32>
    ensures { result ≡ spec_struct_in kind }
{
    match kind {
        Kind::Structure(number) => Some(number),
        Kind::Pointer { target, .. } => Some(target),
        _ => None,
    }
}

impl<'w> Leads<'w> {
    /// The struct of what a path begins at.
    fn root(self, root: Root) -> Option<u32>
        ensures { result ≡ root_by self.entry.layout.now self.entry.locals.now root }
    {
        match root {
            Root::Global(number) => struct_in(self.layout.part(Holder::Global(number))?.thing.kind),
            Root::Local(number) => struct_in(*self.locals.get(number as usize)?),
            Root::Owner => None,
        }
    }

    /// The struct of a member of a struct, by their numbers.
    fn member(self, structure: u32, number: u32) -> Option<u32>
        ensures { result ≡ member_struct self.entry.layout.now number structure }
    {
        struct_in(self.layout.member_part(structure, number)?.thing.kind)
    }

    /// The struct behind a step: of a member, and else the same one.
    fn behind(self, step: &PathStep, structure: Option<u32>) -> Option<u32>
        ensures { result ≡ struct_behind self.entry.layout.now step.now structure }
    {
        match step {
            PathStep::Field(number) => self.member(structure?, *number),
            _ => structure,
        }
    }

    /// The struct to which a path leads, where it leads to one.
    pub fn structure(self, path: &Path) -> Option<u32>
        ensures { result ≡ struct_by self.entry.layout.now self.entry.locals.now path.now }
    {
        let mut structure = self.root(path.root());
        'each: for step in path.steps() {
            structure = self.behind(step, structure);
        }
        structure
    }
}
