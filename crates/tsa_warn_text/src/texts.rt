//! The paths of a function with their texts, in the order in which they are told.
ghost use Rattle.std.specs.Prelude.{◌≡◌, List, map, length, AllPairs, IfOk};
ghost use Rattle.std.specs.List.Sorted.{IsPermutation};
ghost use Rattle.tsa_place_model.specs.Ways.{Way};
ghost use Rattle.tsa_path.specs.PathTexts.{Names};
ghost use Rattle.tsa_warn_text.specs.Orders.{IsToldBefore, texts_of};
ghost use Rattle.tsa_warn_text.specs.Ranks.{told_by, numbers_of, rank_in};

use crate::order::{order_of, text_at};
use crate::ranks::{rank_at, ranks_of};
use crate::text::PathText;
use std::alloc::Global;
use std::marker::Model;
use tsa_base::NoMemory;
use tsa_path::PathNames;
use tsa_rules_table::Numbers;

/// The paths of a function with their texts, by their numbers, and the order in which they are told. Contracts see what each path is told
/// by.
pub struct PathTexts {
    texts: Vec<PathText>,
    order: Vec<u32>,
    ranks: Vec<u32>,
}

impl Drop for PathTexts {
    /// Lets its parts go, in one call for all who let one go.
    fn drop(self) {
        let PathTexts {
            texts: _,
            order: _,
            ranks: _,
        } = self;
    }
}

impl Model for PathTexts {
    ghost use Rattle.std.specs.Prelude.{◌≡◌, List};
    ghost use Rattle.tsa_warn_text.specs.Ranks.{PathText, IsOrder, ranks_in};

    ghost Value = { List PathText };

    ghost view = { λ paths. paths.texts.items };

    ghost invariant = { λ paths. IsOrder paths.texts.items paths.order.items × (paths.ranks.items ≡ ranks_in paths.texts.items) };
}

/// What each path is told by.
fn texts_of_all<N: PathNames>(
    alloc: Global,
    names: &N,
    paths: &Numbers,
) -> Result<Vec<PathText>, NoMemory>
    ensures { IfOk result (λ texts. texts.items ≡ texts_of (N.names names.now) paths.now) }
{
    let mut texts = Vec::new(alloc);
    'each: for number in 0..paths.len() {
        if let Some(path) = paths.path(number) {
            texts.push(PathText::new(alloc, names, path)?)?;
        }
    }
    Ok(texts)
}

impl PathTexts {
    /// The paths of a function, by the names that it sees.
    pub fn new<N: PathNames>(
        alloc: Global,
        names: &N,
        paths: &Numbers,
    ) -> Result<PathTexts, NoMemory>
        ensures { IfOk result (λ texts. texts ≡ texts_of (N.names names.now) paths.now) }
    {
        let texts = texts_of_all(alloc, names, paths)?;
        PathTexts::in_order(alloc, texts, paths.len())
    }

    /// Paths in order, of which there are so many.
    fn in_order(alloc: Global, texts: Vec<PathText>, count: u32) -> Result<PathTexts, NoMemory>
        requires { count ≡ length texts.items }
        ensures { IfOk result (λ paths. paths ≡ texts.items) }
    {
        let order = order_of(alloc, &texts, count)?;
        let ranks = ranks_of(alloc, &order, count)?;
        Ok(PathTexts {
            texts,
            order,
            ranks,
        })
    }

    /// The text of the path of a number; none where there is no such number.
    pub fn text(&self, number: u32) -> &[u8]
        ensures { result.now ≡ (told_by self.now number).text }
    {
        text_at(&self.texts, number)
    }

    /// All numbers in the order in which their paths are told.
    pub fn order(&self) -> &[u32]
        ensures each { IsPermutation (numbers_of self.now) result.now }
        ensures ordered { (names : Names) (paths : List Way) → self.now ≡ texts_of names paths
            → AllPairs (IsToldBefore names paths) result.now }
        ensures ranks { map (rank_in self.now) result.now ≡ numbers_of self.now }
    {
        &self.order
    }

    /// The place of a number in that order; 0 for one that isn't there.
    pub fn rank(&self, number: u32) -> u32
        ensures { result ≡ rank_in self.now number }
    {
        rank_at(&self.ranks, number)
    }
}
