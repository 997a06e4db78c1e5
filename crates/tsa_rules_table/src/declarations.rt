//! Notes of declarations: each is noted of the paths that mention the local.
ghost use Rattle.std.specs.Prelude.{◌≡◌, option_map, slice_get, OnOk};
ghost use Rattle.std.specs.List.{list_any};
ghost use Rattle.tsa_rules.specs.Points.{is_index as spec_is_index, is_rooted_at as spec_is_rooted_at, mentions as spec_mentions};
ghost use Rattle.tsa_rules_table.specs.Notes.{NotesDeclaration};
ghost use Rattle.tsa_rules_table.specs.Rows.{IsBegun, KeepsRows};
ghost use Rattle.tsa_rules_table.specs.Saying.{is_mentioning, AddsMention};

use crate::marks::Marks;
use crate::note::Note;
use crate::numbers::Numbers;
use tsa_base::NoMemory;
use tsa_place_model::{Path, PathStep, Root};

/// Whether a path begins at a local.
fn is_rooted_at(root: Root, local: u32) -> bool
    ensures { result ≡ spec_is_rooted_at local root }
{
    match root {
        Root::Local(number) => number == local,
        _ => false,
    }
}

/// Whether a step is to the element of which a local is the index.
fn is_index(step: PathStep, local: u32) -> bool
    ensures { result ≡ spec_is_index local step }
{
    match step {
        PathStep::Variable(number) => number == local,
        _ => false,
    }
}

/// Whether a local is an index among some steps.
fn is_among(steps: &[PathStep], local: u32) -> bool
    ensures { result ≡ list_any (spec_is_index local) steps.now }
{
    steps.iter().any(|step| is_index(*step, local))
}

/// Whether a path begins at a local or has it as an index.
fn mentions(path: &Path, local: u32) -> bool
    ensures { result ≡ spec_mentions local path.now }
{
    is_rooted_at(path.root(), local) || is_among(path.steps(), local)
}

impl Numbers {
    /// Whether the path of a number mentions a local.
    fn is_mentioning(&self, number: u32, local: u32) -> bool
        ensures { result ≡ is_mentioning self.now number local }
    {
        match self.path(number) {
            Some(path) => mentions(path, local),
            None => false,
        }
    }
}

impl Marks {
    /// Notes the declaration of a local of the path of a number, where that mentions it.
    fn note_mention(&mut self, numbers: &Numbers, number: u32, local: u32) -> Result<(), NoMemory>
        requires begun { IsBegun self.old }
        ensures { OnOk result (AddsMention numbers.now local self.old self.new number) }
    {
        if numbers.is_mentioning(number, local) {
            self.add(number, Note::Mentions)
        } else {
            Ok(())
        }
    }

    /// Notes the declaration of a local.
    #[tactic(auto, using(crate::proofs::Saying::begun_on))]
    pub fn note_declaration(&mut self, numbers: &Numbers, local: u32) -> Result<(), NoMemory>
        requires begun { IsBegun self.old }
        ensures row { OnOk result (NotesDeclaration numbers.now self.old self.new local) }
        ensures kept { OnOk result (KeepsRows self.old self.new) }
    {
        'each: for number in 0..numbers.len() {
            self.note_mention(numbers, number, local)?;
        }
        Ok(())
    }
}
