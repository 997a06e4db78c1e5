//! What a place lies in, up to its global, and what is told along that: its text (C11 6.5.2.1, 6.5.2.3) and its guards.
ghost use Rattle.std.specs.Prelude.{◌≡◌, ◌≤◌, ◌++◌, length, take, drop, reverse, IfOk, OnOk};
ghost use Rattle.tsa_place_model.specs.Calls.{owner_at, way_to as spec_way_to, index_text, dot, part_name, part_of, own_text, text_of};
ghost use Rattle.tsa_place_model.specs.Calls.{guard_by, guards_by, own_guards, guards_of};

use crate::layout::Layout;
use itoa::Buffer;
use std::alloc::Global;
use tsa_base::NoMemory;
use tsa_place_model::{Guard, Holder, Path, Placed};

/// Appends an index in brackets, where there is one.
fn add_index(text: &mut Vec<u8>, index: Option<u32>) -> Result<(), NoMemory>
    ensures { OnOk result (text.new.items ≡ text.old.items ++ index_text index) }
{
    if let Some(index) = index {
        let mut digits = Buffer::new();
        text.extend_from_slice(b"[")?;
        text.extend_from_slice(digits.format(index).as_bytes())?;
        text.extend_from_slice(b"]")?;
    }
    Ok(())
}

/// Appends a dot, before the name of a member.
fn add_dot(text: &mut Vec<u8>, holder: Holder) -> Result<(), NoMemory>
    ensures { OnOk result (text.new.items ≡ text.old.items ++ dot holder) }
{
    match holder {
        Holder::Global(_) => Ok(()),
        Holder::Member { .. } => {
            text.extend_from_slice(b".")?;
            Ok(())
        }
    }
}

/// Turns the bytes of a text round from one on.
fn turn(text: &mut Vec<u8>, from: usize)
    requires { from ≤ length text.now.items }
    ensures { text.new.items ≡ take from text.old.items ++ reverse (drop from text.old.items) }
{
    text[from..].reverse();
}

impl<'t> Layout<'t> {
    /// What the struct object is in which a place lies.
    fn owner(&self, holder: Holder) -> Option<Placed>
        ensures { result ≡ owner_at self.now holder }
    {
        self.placed(holder.owner()?)
    }

    /// A place with those that it lies in, the innermost first.
    fn way_to(&self, alloc: Global, place: u32) -> Result<Vec<Placed>, NoMemory>
        ensures { IfOk result (λ way. way.items ≡ spec_way_to self.now place) }
    {
        let mut way = Vec::new(alloc);
        let mut at = self.placed(place);
        let mut left = u64::from(place) + 1;
        'outward: while left > 0 {
            match at {
                Some(placed) => {
                    way.push(placed)?;
                    at = self.owner(placed.holder);
                }
                None => return Ok(way),
            }
            left -= 1;
        }
        Ok(way)
    }

    /// Appends the name of what declares a place.
    fn add_name(&self, text: &mut Vec<u8>, holder: Holder) -> Result<(), NoMemory>
        ensures { OnOk result (text.new.items ≡ text.old.items ++ part_name (part_of self.now holder)) }
    {
        if let Some(part) = self.part(holder) {
            text.extend_from_slice(&part.name)?;
        }
        Ok(())
    }

    /// Appends what a place adds to the text of the one that it lies in.
    fn add_text(&self, text: &mut Vec<u8>, placed: Placed) -> Result<(), NoMemory>
        ensures { OnOk result (text.new.items ≡ text.old.items ++ own_text self.now placed) }
    {
        add_dot(text, placed.holder)?;
        self.add_name(text, placed.holder)?;
        add_index(text, placed.index)
    }

    /// Appends what a place adds to the text of the one that it lies in, the last byte first.
    fn add_turned(&self, text: &mut Vec<u8>, placed: Placed) -> Result<(), NoMemory>
        ensures { OnOk result (text.new.items ≡ text.old.items ++ reverse (own_text self.now placed)) }
    {
        let from = text.len();
        self.add_text(text, placed)?;
        turn(text, from);
        Ok(())
    }

    /// Appends the text of a place in C, the last byte first.
    fn add_way(&self, text: &mut Vec<u8>, place: u32) -> Result<(), NoMemory>
        ensures { OnOk result (text.new.items ≡ text.old.items ++ reverse (text_of self.now place)) }
    {
        let mut at = self.placed(place);
        let mut left = u64::from(place) + 1;
        'outward: while left > 0 {
            match at {
                Some(placed) => {
                    self.add_turned(text, placed)?;
                    at = self.owner(placed.holder);
                }
                None => return Ok(()),
            }
            left -= 1;
        }
        Ok(())
    }

    /// Appends the text of a place in C: its global's name, then `.f` for each member and `[k]` for each index. It takes no memory but
    /// the text's.
    pub fn put_text(&self, text: &mut Vec<u8>, place: u32) -> Result<(), NoMemory>
        ensures { OnOk result (text.new.items ≡ text.old.items ++ text_of self.now place) }
    {
        let from = text.len();
        self.add_way(text, place)?;
        turn(text, from);
        Ok(())
    }

    /// The text of a place in C.
    pub fn text(&self, alloc: Global, place: u32) -> Result<Vec<u8>, NoMemory>
        ensures { IfOk result (λ text. text.items ≡ text_of self.now place) }
    {
        let mut text = Vec::new(alloc);
        self.put_text(&mut text, place)?;
        Ok(text)
    }

    /// What a guard is, where the member of an object has it.
    fn guard(&self, owner: Option<u32>, path: &Option<Path>) -> Guard
        ensures { result ≡ guard_by self.now owner path.now }
    {
        match path {
            Some(path) => match self.evaluate(&[], owner, path) {
                Some(place) => Guard::Lock(place),
                None => Guard::Nothing,
            },
            None => Guard::Nothing,
        }
    }

    /// Appends what some guards are, where the member of an object has them.
    fn add_each(
        &self,
        guards: &mut Vec<Guard>,
        owner: Option<u32>,
        paths: &[Option<Path>],
    ) -> Result<(), NoMemory>
        ensures { OnOk result (guards.new.items ≡ guards.old.items ++ guards_by self.now owner paths.now) }
    {
        'each: for path in paths {
            guards.push(self.guard(owner, path))?;
        }
        Ok(())
    }

    /// Appends the guards that a place has beside those of the one that it lies in.
    fn add_guards(&self, guards: &mut Vec<Guard>, placed: Placed) -> Result<(), NoMemory>
        ensures { OnOk result (guards.new.items ≡ guards.old.items ++ own_guards self.now placed) }
    {
        match self.part(placed.holder) {
            Some(part) => self.add_each(guards, placed.holder.owner(), &part.guards),
            None => Ok(()),
        }
    }

    /// What each guard is that is declared on the way from a place's global to it, in order.
    pub fn guards(&self, alloc: Global, place: u32) -> Result<Vec<Guard>, NoMemory>
        ensures { IfOk result (λ guards. guards.items ≡ guards_of self.now place) }
    {
        let way = self.way_to(alloc, place)?;
        let mut guards = Vec::new(alloc);
        let mut left = way.len();
        'inward: while left > 0 {
            left -= 1;
            self.add_guards(&mut guards, way[left])?;
        }
        Ok(guards)
    }
}
