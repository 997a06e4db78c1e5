//! The points of a function at which something claims or tries a path, path by path.
ghost use Rattle.std.specs.Prelude.{◌≡◌, ◌++◌, ◌∷◌, [], replicate, slice_get, slice_index_or, slice_set, IfOk, OnOk};
ghost use Rattle.tsa_flow_function.specs.Claims.{is_noted as spec_is_noted, noted, with_entry, with_found};
ghost use Rattle.tsa_rules_table.specs.Rows.{entry_of};

use std::alloc::Global;
use std::marker::Model;
use tsa_base::NoMemory;
use tsa_rules::Mark;
use tsa_rules_table::{Entry, Marks};

/// Lists of points, by the numbers of paths. Contracts see the lists.
#[derive(Drop)]
pub struct Claims {
    lists: Vec<Vec<u32>>,
}

impl Model for Claims {
    ghost use Rattle.std.specs.Prelude.{List, ℕ, map};

    ghost Value = { List (List ℕ) };

    ghost view = { λ a. map (λ list. list.items) a.lists.items };
}

/// A point behind others.
fn put(list: &mut Vec<u32>, point: u32) -> Result<(), NoMemory>
    ensures { OnOk result (list.new.items ≡ list.old.items ++ point ∷ []) }
{
    list.push(point)?;
    Ok(())
}

/// Whether a mark is that of a path which is claimed or tried.
fn is_noted(mark: Mark) -> bool
    ensures { result ≡ spec_is_noted mark }
{
    mark.claim.is_some() || mark.tried.is_some()
}

impl Claims {
    /// No paths. No memory is taken.
    fn empty(alloc: Global) -> Claims
        ensures { result ≡ [] }
    {
        Claims {
            lists: Vec::new(alloc),
        }
    }

    /// One path more, which nothing claims or tries.
    fn add(&mut self, list: Vec<u32>) -> Result<(), NoMemory>
        ensures { OnOk result (self.new ≡ self.old ++ list.items ∷ []) }
    {
        self.lists.push(list)?;
        Ok(())
    }

    /// So many paths, which nothing claims or tries.
    pub(crate) fn new(alloc: Global, paths: u32) -> Result<Claims, NoMemory>
        ensures { IfOk result (λ claims. claims ≡ replicate paths []) }
    {
        let mut claims = Claims::empty(alloc);
        'each: for _ in 0..paths {
            claims.add(Vec::new(alloc))?;
        }
        Ok(claims)
    }

    /// A point at which something claims or tries the path of a number; nothing changes where there is no such path.
    pub(crate) fn note(&mut self, number: u32, point: u32) -> Result<(), NoMemory>
        ensures { OnOk result (self.new ≡ slice_set self.old number (slice_index_or self.old number [] ++ point ∷ [])) }
    {
        match self.lists.get_mut(number as usize) {
            Some(list) => put(list, point),
            None => Ok(()),
        }
    }

    /// The point and the path of a mark, where that is claimed or tried there.
    fn note_entry(&mut self, entry: Entry) -> Result<(), NoMemory>
        ensures { OnOk result (self.new ≡ with_entry self.old (entry_of entry)) }
    {
        if is_noted(entry.mark) {
            self.note(entry.number, entry.row)
        } else {
            Ok(())
        }
    }

    /// The point and the path of a mark that is noted, by its number, where something claims or tries the path there.
    fn note_at(&mut self, marks: &Marks, at: usize) -> Result<(), NoMemory>
        ensures { OnOk result (self.new ≡ with_found self.old (slice_get marks.now.marks at)) }
    {
        match marks.entry(at) {
            Some(entry) => self.note_entry(entry),
            None => Ok(()),
        }
    }

    /// The points at which something claims or tries the path of a number; none of one that isn't there.
    pub fn at(&self, number: u32) -> &[u32]
        ensures { result.now ≡ slice_index_or self.now number [] }
    {
        match self.lists.get(number as usize) {
            Some(list) => list,
            None => &[],
        }
    }
}

/// The points at which something claims or tries each of so many paths, by what points say of them.
pub fn claims_of(alloc: Global, marks: &Marks, paths: u32) -> Result<Claims, NoMemory>
    ensures { IfOk result (λ claims. claims ≡ noted marks.now.marks (replicate paths [])) }
{
    let mut claims = Claims::new(alloc, paths)?;
    'each: for at in 0..marks.len() {
        claims.note_at(marks, at)?;
    }
    Ok(claims)
}
