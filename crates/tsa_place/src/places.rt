//! The places of a unit, with all that is asked of them (C11 6.2.4).
ghost use Rattle.std.specs.Prelude.{◌≡◌, ◌<◌, ◌++◌, length, Some, None, slice_get, option_map, IfOk, OnOk};
ghost use Rattle.tsa_place.specs.Answers.{Gives};
ghost use Rattle.tsa_place_model.specs.Calls.{declarator_of, element_place, evaluated, global_place, guards_of};
ghost use Rattle.tsa_place_model.specs.Calls.{is_addressable as spec_is_addressable, is_lock_kind, member_place, place_kind, text_of};
ghost use Rattle.tsa_place_model.specs.Units.{placed_in};
ghost use Rattle.tsa_tree.specs.units.Shapes.{item_shapes};

use crate::unit::placed;
use crate::{Globals, PlaceRefusal};
use std::alloc::Global;
use std::marker::Model;
use tsa_base::{NoMemory, Span, Value};
use tsa_place_layout::Layout;
use tsa_place_model::{Guard, Path, PlaceKind, Placed};
use tsa_tree::item::UnitTree;
use tsa_tree::kind::Kind;

/// The cells and struct objects of a unit's globals, by numbers from 0 on. Contracts see a layout.
#[derive(Drop)]
pub struct Places {
    globals: Globals,
}

impl Model for Places {
    ghost use Rattle.tsa_place_model.specs.Calls.{Layout};

    ghost Value = { Layout };

    ghost view = { λ places. places.globals };
}

/// Whether a kind is a struct, or that of a cell.
fn kind_of(kind: Kind) -> PlaceKind
    ensures { result ≡ place_kind kind }
{
    match kind {
        Kind::Structure(_) => PlaceKind::Structure,
        _ => PlaceKind::Cell,
    }
}

/// Whether a pointer may point to a place.
fn is_addressable(placed: Placed) -> bool
    ensures { result ≡ spec_is_addressable placed }
{
    match placed.kind {
        Kind::Structure(_) => !placed.is_guarded,
        _ => false,
    }
}

impl Places {
    /// Numbers all places of a unit.
    pub fn new(alloc: Global, unit: &UnitTree<'_>) -> Result<Places, PlaceRefusal>
        ensures { Gives (placed_in (item_shapes unit.now.items.now)) result }
    {
        match placed(alloc, unit.items) {
            Ok(globals) => Ok(Places { globals }),
            Err(refusal) => Err(refusal),
        }
    }

    /// What is known of the places, to be asked.
    pub fn layout(&self) -> Layout<'_>
        ensures { result ≡ self.now }
    {
        self.globals.layout()
    }

    /// How many places there are.
    pub fn count(&self) -> u32
        ensures { result ≡ length self.now.places }
    {
        self.globals.count()
    }

    /// The first place of a global by its number.
    pub fn global(&self, number: u32) -> Option<u32>
        ensures { result ≡ global_place self.now number }
    {
        self.globals.layout().global(number)
    }

    /// The first place of a member, by its number, of the struct object at a place.
    pub fn member(&self, place: u32, number: u32) -> Option<u32>
        ensures { result ≡ member_place self.now place number }
    {
        self.globals.layout().member(place, number)
    }

    /// The element of an index of the array whose element 0 stands at a place.
    pub fn element(&self, place: u32, index: u32) -> Option<u32>
        ensures { result ≡ element_place self.now place index }
    {
        self.globals.layout().element(place, index)
    }

    /// What stands at a place.
    fn at(&self, place: u32) -> Placed
        requires { place < length self.now.places }
        ensures { slice_get self.now.places place ≡ Some result }
    {
        self.globals.at(place)
    }

    /// Whether a place is a cell or a struct object.
    pub fn kind(&self, place: u32) -> PlaceKind
        requires { place < length self.now.places }
        ensures { option_map (λ p. place_kind p.kind) (slice_get self.now.places place) ≡ Some result }
    {
        kind_of(self.at(place).kind)
    }

    /// Whether a place is a struct object that is a lock.
    pub fn is_lock(&self, place: u32) -> bool
        requires { place < length self.now.places }
        ensures { option_map (λ p. is_lock_kind self.now p.kind) (slice_get self.now.places place) ≡ Some result }
    {
        self.globals.layout().is_lock(self.at(place).kind)
    }

    /// Whether a place is `const`, by itself or by what it lies in.
    pub fn is_const(&self, place: u32) -> bool
        requires { place < length self.now.places }
        ensures { option_map (λ p. p.is_const) (slice_get self.now.places place) ≡ Some result }
    {
        self.at(place).is_const
    }

    /// Whether a pointer may point to a place: to a struct object that no guard stands before.
    pub fn addressable(&self, place: u32) -> bool
        requires { place < length self.now.places }
        ensures { option_map spec_is_addressable (slice_get self.now.places place) ≡ Some result }
    {
        is_addressable(self.at(place))
    }

    /// What a cell holds at the start.
    pub fn initial(&self, place: u32) -> Value
        requires { place < length self.now.places }
        ensures { option_map (λ p. p.initial) (slice_get self.now.places place) ≡ Some result }
    {
        self.at(place).initial
    }

    /// Where the declarator of a place stands, which is the last on the way to it.
    pub fn declarator(&self, place: u32) -> Span
        requires { place < length self.now.places }
        ensures { option_map (declarator_of self.now) (slice_get self.now.places place) ≡ Some result }
    {
        self.globals.layout().declarator(self.at(place))
    }

    /// Appends the text of a place in C, and takes no memory but the text's.
    pub fn put_text(&self, text: &mut Vec<u8>, place: u32) -> Result<(), NoMemory>
        ensures { OnOk result (text.new.items ≡ text.old.items ++ text_of self.now place) }
    {
        self.globals.layout().put_text(text, place)
    }

    /// The text of a place in C.
    pub fn text(&self, alloc: Global, place: u32) -> Result<Vec<u8>, NoMemory>
        ensures { IfOk result (λ text. text.items ≡ text_of self.now place) }
    {
        self.globals.layout().text(alloc, place)
    }

    /// What each guard is that is declared on the way from a place's global to it, in order.
    pub fn guards(&self, alloc: Global, place: u32) -> Result<Vec<Guard>, NoMemory>
        ensures { IfOk result (λ guards. guards.items ≡ guards_of self.now place) }
    {
        self.globals.layout().guards(alloc, place)
    }

    /// The place that a path leads to with the values of locals, along pointers of the store at the start that never change; none along
    /// null or past an array's end.
    pub fn evaluate(&self, locals: &[Value], path: &Path) -> Option<u32>
        ensures { result ≡ evaluated self.now (slice_get locals.now) None path.now }
    {
        self.globals.layout().evaluate(locals, None, path)
    }
}
