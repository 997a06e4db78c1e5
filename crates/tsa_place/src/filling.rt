//! The places of a thing are put one after another (C11 6.2.5p20, 6.7.2.1p15), with a list of what has none yet in place of a recursion.
ghost use Rattle.std.specs.Prelude.{Some, ◌≡◌, ◌++◌, ◌+◌, ◌≤◌, ◌∷◌, [], nat_lt, length, option_map, slice_get, IfOk, OnOk};
ghost use Rattle.tsa_place.specs.Filling.{given, things_left, IsPlaceable, IsLeft, Leaves, values_by, with_one, with_left, with_thing};
ghost use Rattle.tsa_place.specs.Filling.{IsReady, Fits, Puts};
ghost use Rattle.tsa_place_model.specs.Layouts.{size_of, thing_size};
ghost use Rattle.tsa_place_model.specs.Places.{a_place, item_of as spec_item_of, element_of as spec_element_of};
ghost use Rattle.tsa_place_model.specs.Places.{member_of as spec_member_of, places_of};
ghost use Rattle.tsa_place_model.specs.Standing.{IsBelow, IsOrdered, IsWithin};
ghost use Rattle.tsa_place_model.specs.Parts.{place_limit};
ghost use Rattle.tsa_tree.specs.declarations.Shapes.{init_shape};

use crate::environment::Known;
use tsa_base::NoMemory;
use tsa_place_layout::{Part, Structures};
use tsa_place_model::{Holder, Placed};
use tsa_tree::decl::Init;
use tsa_tree::kind::{Kind, ThingType};

/// What a part has from where it lies: what declares it, whether it is `const` or guarded, and its initialiser where one is written.
#[derive(Clone, Copy)]
pub struct Origin<'t> {
    pub holder: Holder,
    pub is_const: bool,
    pub is_guarded: bool,
    pub init: Option<&'t Init<'t>>,
}

/// A place alone: what it has from where it lies, its index where it is an element, and what it is.
#[derive(Clone, Copy)]
pub struct One<'t> {
    pub from: Origin<'t>,
    pub index: Option<u32>,
    pub kind: Kind,
}

/// Elements of an array, from an index on, before an end.
#[derive(Clone, Copy)]
pub struct Elements<'t> {
    pub from: Origin<'t>,
    pub index: u32,
    pub end: u32,
    pub kind: Kind,
}

/// Members of the struct object at a place, from a number on.
#[derive(Clone, Copy)]
pub struct Members<'t> {
    pub from: Origin<'t>,
    pub owner: u32,
    pub number: u32,
    pub structure: u32,
}

/// What of a thing has no place yet.
#[derive(Clone, Copy)]
pub enum Left<'t> {
    Elements(Elements<'t>),
    Members(Members<'t>),
}

/// The places so far, and what has none yet: the last of it comes first.
#[derive(Drop)]
pub struct Rows<'t> {
    pub places: Vec<Placed>,
    pub left: Vec<Left<'t>>,
}

/// The item of a number.
fn item_at<'t>(items: &'t [Init<'t>], number: u32) -> Option<&'t Init<'t>>
    ensures { option_map (λ x. x.now) result ≡ slice_get items.now number }
{
    items.get(number as usize)
}

/// The item of a number in an initialiser.
#[tactic(auto, using(crate::proofs::ItemLists::items))]
fn item_in<'t>(init: &'t Init<'t>, number: u32) -> Option<&'t Init<'t>>
    ensures { option_map (λ x. init_shape x.now) result ≡ spec_item_of (Some (init_shape init.now)) number }
{
    match init {
        Init::List { items, .. } => item_at(items, number),
        Init::Value(_) => None,
    }
}

/// The item of a number in an initialiser that may be left out.
fn item_of<'t>(init: Option<&'t Init<'t>>, number: u32) -> Option<&'t Init<'t>>
    ensures { option_map (λ x. init_shape x.now) result ≡ spec_item_of (option_map (λ x. init_shape x.now) init.entry) number }
{
    match init {
        Some(init) => item_in(init, number),
        None => None,
    }
}

/// What the element of an index has.
fn element_of<'t>(from: Origin<'t>, index: u32) -> Origin<'t>
    ensures { given result ≡ spec_element_of (given from.entry) index }
{
    Origin {
        holder: from.holder,
        is_const: from.is_const,
        is_guarded: from.is_guarded,
        init: item_of(from.init, index),
    }
}

/// What a member has of the object at a place.
fn member_of<'t>(from: Origin<'t>, owner: u32, number: u32, part: &Part) -> Origin<'t>
    ensures { given result ≡ spec_member_of (given from.entry) owner number part.now }
{
    Origin {
        holder: Holder::Member { owner, number },
        is_const: from.is_const || part.thing.is_const,
        is_guarded: from.is_guarded || !part.guards.is_empty(),
        init: item_of(from.init, number),
    }
}

/// The number of the place that is put next.
fn next_place(places: &[Placed]) -> u32
    requires { length places.now ≤ place_limit }
    ensures { result ≡ length places.now }
{
    places.len() as u32
}

/// Whether there is anything among it.
fn is_any(structs: &Structures, left: Left<'_>) -> bool
    ensures { result ≡ nat_lt 0 (things_left structs.now left.entry) }
{
    match left {
        Left::Elements(elements) => elements.index < elements.end,
        Left::Members(members) => structs.member(members.structure, members.number).is_some(),
    }
}

impl<'t> Rows<'t> {
    /// Leaves elements or members for later, where there are any.
    #[tactic(auto, using(crate::proofs::Leaving::leaving))]
    fn leave(&mut self, structs: &Structures, left: Left<'t>) -> Result<(), NoMemory>
        requires { IsPlaceable structs.now left }
        ensures left { OnOk result (Leaves structs.now self.old.left.items self.new.left.items left.entry) }
        ensures same { OnOk result (self.new.places.items ≡ self.old.places.items) }
    {
        if is_any(structs, left) {
            self.left.push(left)?;
        }
        Ok(())
    }
}

impl<'t, 'a> Known<'t, 'a> {
    /// Puts a place alone.
    fn put(self, rows: &mut Rows<'t>, one: One<'t>) -> Result<(), NoMemory>
        requires { self.count ≤ place_limit }
        ensures put { OnOk result (rows.new.places.items ≡ rows.old.places.items
            ++ a_place (values_by self.entry rows.old.places.items) (given one.entry.from) one.entry.index one.entry.kind ∷ []) }
        ensures same { OnOk result (rows.new.left.items ≡ rows.old.left.items) }
    {
        let initial = self.value(&rows.places, one.kind, one.from.init)?;
        rows.places.push(Placed {
            holder: one.from.holder,
            index: one.index,
            kind: one.kind,
            is_const: one.from.is_const,
            is_guarded: one.from.is_guarded,
            initial,
        })?;
        Ok(())
    }

    /// Puts a place; the members of a struct object are left.
    fn enter(self, rows: &mut Rows<'t>, one: One<'t>) -> Result<(), NoMemory>
        requires ready { IsReady self rows.old }
        requires defined { IsBelow (length self.structs.now) one.kind }
        requires fits { Fits rows.old (with_one self rows.old one) }
        ensures { OnOk result (Puts self.entry rows.old rows.new (with_one self.entry rows.old one.entry)) }
    {
        let owner = next_place(&rows.places);
        self.put(rows, one)?;
        match one.kind {
            Kind::Structure(structure) => {
                let members = Members {
                    from: one.from,
                    owner,
                    number: 0,
                    structure,
                };
                rows.leave(self.structs, Left::Members(members))
            }
            _ => Ok(()),
        }
    }

    /// Puts the first of some elements; the others are left.
    fn element(self, rows: &mut Rows<'t>, elements: Elements<'t>) -> Result<(), NoMemory>
        requires ready { IsReady self rows.old }
        requires some { IsLeft self.structs.now (Left.Elements elements) }
        requires fits { Fits rows.old (with_left self rows.old (Left.Elements elements)) }
        ensures { OnOk result (Puts self.entry rows.old rows.new (with_left self.entry rows.old (Left.Elements elements.entry))) }
    {
        let others = Elements {
            from: elements.from,
            index: elements.index + 1,
            end: elements.end,
            kind: elements.kind,
        };
        rows.leave(self.structs, Left::Elements(others))?;
        let one = One {
            from: element_of(elements.from, elements.index),
            index: Some(elements.index),
            kind: elements.kind,
        };
        self.enter(rows, one)
    }

    /// Puts the first place of a thing.
    fn thing(self, rows: &mut Rows<'t>, from: Origin<'t>, thing: ThingType) -> Result<(), NoMemory>
        requires ready { IsReady self rows.old }
        requires within { IsWithin (length self.structs.now) thing }
        requires fits { Fits rows.old (with_thing self rows.old from thing) }
        ensures { OnOk result (Puts self.entry rows.old rows.new (with_thing self.entry rows.old from.entry thing)) }
    {
        let kind = thing.kind;
        match thing.length {
            Some(end) => {
                let elements = Elements {
                    from,
                    index: 0,
                    end,
                    kind,
                };
                self.element(rows, elements)
            }
            None => {
                let one = One {
                    from,
                    index: None,
                    kind,
                };
                self.enter(rows, one)
            }
        }
    }

    /// Puts the first place of the first of some members; the others are left.
    fn member(self, rows: &mut Rows<'t>, members: Members<'t>) -> Result<(), NoMemory>
        requires ready { IsReady self rows.old }
        requires some { IsLeft self.structs.now (Left.Members members) }
        requires fits { Fits rows.old (with_left self rows.old (Left.Members members)) }
        ensures { OnOk result (Puts self.entry rows.old rows.new (with_left self.entry rows.old (Left.Members members.entry))) }
    {
        let Some(part) = self.structs.member(members.structure, members.number) else {
            return Ok(());
        };
        let others = Members {
            from: members.from,
            owner: members.owner,
            number: members.number + 1,
            structure: members.structure,
        };
        rows.leave(self.structs, Left::Members(others))?;
        let from = member_of(members.from, members.owner, members.number, part);
        self.thing(rows, from, part.thing)
    }

    /// Puts the first place of what is left.
    fn first(self, rows: &mut Rows<'t>, left: Left<'t>) -> Result<(), NoMemory>
        requires ready { IsReady self rows.old }
        requires some { IsLeft self.structs.now left }
        requires fits { Fits rows.old (with_left self rows.old left) }
        ensures { OnOk result (Puts self.entry rows.old rows.new (with_left self.entry rows.old left.entry)) }
    {
        match left {
            Left::Elements(elements) => self.element(rows, elements),
            Left::Members(members) => self.member(rows, members),
        }
    }

    /// Puts all places of a thing, where nothing else is left.
    pub fn place(
        self,
        rows: &mut Rows<'t>,
        from: Origin<'t>,
        thing: ThingType,
    ) -> Result<(), NoMemory>
        requires ready { IsReady self rows.old }
        requires within { IsWithin (length self.structs.now) thing }
        requires alone { rows.old.left.items ≡ [] }
        requires fits { length rows.old.places.items + thing_size (size_of self.structs.now) thing ≤ place_limit }
        ensures all { OnOk result (rows.new.places.items ≡ rows.old.places.items
            ++ places_of self.entry.structs.now (values_by self.entry rows.old.places.items) (given from.entry)
            (length rows.old.places.items) thing) }
        ensures alone { OnOk result (rows.new.left.items ≡ []) }
    {
        self.thing(rows, from, thing)?;
        'left: while let Some(left) = rows.left.pop() {
            self.first(rows, left)?;
        }
        Ok(())
    }

    /// Places with those of a thing behind them, where all of them belong to earlier globals.
    #[tactic(auto, using(crate::proofs::Fitting::many))]
    pub fn with_thing(
        self,
        places: Vec<Placed>,
        from: Origin<'t>,
        thing: ThingType,
    ) -> Result<Vec<Placed>, NoMemory>
        requires earlier { self.count ≡ length places.items }
        requires ordered { IsOrdered self.structs.now }
        requires within { IsWithin (length self.structs.now) thing }
        requires fits { length places.items + thing_size (size_of self.structs.now) thing ≤ place_limit }
        ensures many { IfOk result (λ all. length all.items ≡ length places.items + thing_size (size_of self.entry.structs.now) thing) }
        ensures all { IfOk result (λ all. all.items ≡ places.items ++ places_of self.entry.structs.now (values_by self.entry places.items)
            (given from.entry) (length places.items) thing) }
    {
        let mut rows = Rows {
            places,
            left: Vec::new(self.scope.allocator()),
        };
        self.place(&mut rows, from, thing)?;
        Ok(rows.places)
    }
}
