//! Exits of blocks, by the edges into the first points of blocks.
ghost use Rattle.std.specs.Prelude.{◌≡◌, ◌<◌, ◌^◌, ◌↔◌, ◌++◌, ◌∷◌, All, ℕ, [], length, slice_set, slice_index_or, option_map};
ghost use Rattle.std.specs.Prelude.{option_to_list, IsSome, IfOk, OnOk};
ghost use Rattle.tsa_graph.specs.Noting.{AreNoted, AreExits};

use crate::sequence::{Exit, Place};
use crate::{Edge, GraphBlock};
use std::alloc::Global;
use std::marker::Model;
use tsa_base::NoMemory;

/// Lists of exits, by the blocks' numbers. Contracts see the lists.
#[derive(Drop)]
pub struct Exits {
    lists: Vec<Vec<Exit>>,
}

impl Model for Exits {
    ghost use Rattle.std.specs.Prelude.{List, map};
    ghost use Rattle.tsa_graph.specs.declared.sequence.Exit.{Exit};

    ghost Value = { List (List Exit) };

    ghost view = { λ a. map (λ list. list.items) a.lists.items };
}

/// An exit behind others.
fn put(list: &mut Vec<Exit>, exit: Exit) -> Result<(), NoMemory>
    ensures { OnOk result (list.new.items ≡ list.old.items ++ exit ∷ []) }
{
    list.push(exit)?;
    Ok(())
}

impl Exits {
    /// No exits of no blocks. No memory is taken.
    fn empty(alloc: Global) -> Exits
        ensures { result ≡ [] }
    {
        Exits {
            lists: Vec::new(alloc),
        }
    }

    /// One block more.
    fn add(&mut self, list: Vec<Exit>) -> Result<(), NoMemory>
        ensures { OnOk result (self.new ≡ self.old ++ list.items ∷ []) }
    {
        self.lists.push(list)?;
        Ok(())
    }

    /// No exits of so many blocks.
    fn new(alloc: Global, blocks: u32) -> Result<Exits, NoMemory>
        ensures len { IfOk result (λ exits. length exits ≡ blocks) }
        ensures none { IfOk result (λ exits. (b : ℕ) → slice_index_or exits b [] ≡ []) }
    {
        let mut exits = Exits::empty(alloc);
        'each: for _ in 0..blocks {
            exits.add(Vec::new(alloc))?;
        }
        Ok(exits)
    }

    /// A further exit of a block.
    fn note(&mut self, block: u32, exit: Exit) -> Result<(), NoMemory>
        requires { block < length self.old }
        ensures { OnOk result (self.new ≡ slice_set self.old block (slice_index_or self.old block [] ++ exit ∷ [])) }
    {
        put(&mut self.lists[block as usize], exit)?;
        Ok(())
    }

    /// The exits of the last block, which is taken away.
    pub fn pop(&mut self) -> Option<Vec<Exit>>
        ensures some { IsSome result ↔ (0 < length self.old) }
        ensures items { self.old ≡ self.new ++ option_to_list (option_map (λ list. list.items) result) }
    {
        self.lists.pop()
    }
}

/// Notes the edges into a block, by its number, as exits of the blocks from which they lead.
fn note_into(exits: &mut Exits, places: &[Place], into: &[Edge], to: u32) -> Result<(), NoMemory>
    requires from { All (λ e. e.from < length places.now) into.now }
    requires placed { All (λ at. at.block < length exits.old) places.now }
    ensures { OnOk result (AreNoted places.now into.now to exits.old exits.new) }
{
    'each: for edge in into {
        let exit = Exit {
            outcome: edge.outcome,
            to,
        };
        exits.note(places[edge.from as usize].block, exit)?;
    }
    Ok(())
}

/// The exits of each block.
pub fn exits_of(alloc: Global, blocks: &[GraphBlock], places: &[Place]) -> Result<Exits, NoMemory>
    requires count { length blocks.now < 2 ^ 32 }
    requires from { All (λ b. All (λ e. e.from < length places.now) b.into.items) blocks.now }
    requires placed { All (λ at. at.block < length blocks.now) places.now }
    ensures { IfOk result (λ exits. AreExits blocks.now places.now (length blocks.now) exits) }
{
    let count = blocks.len() as u32;
    let mut exits = Exits::new(alloc, count)?;
    'each: for number in 0..count {
        note_into(&mut exits, places, &blocks[number as usize].into, number)?;
    }
    Ok(exits)
}
