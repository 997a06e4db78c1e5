//! Where a path leads in the start store (C11 6.5.2, 6.5.3.2): from its root step by step, along pointers to what they point to.
ghost use Rattle.std.specs.Prelude.{◌≡◌, slice_get, option_and_then};
ghost use Rattle.tsa_place_model.specs.Calls.{index_in as spec_index_in, pointee as spec_pointee, element_place, take_root, take_step};
ghost use Rattle.tsa_place_model.specs.Calls.{take_steps, evaluated};

use crate::layout::Layout;
use tsa_base::Value;
use tsa_place_model::{Path, PathStep, Root, Spot};

/// What a value points to; nothing by null.
fn pointee(value: Value) -> Option<Spot>
    ensures { result ≡ spec_pointee value }
{
    match value {
        Value::Pointer(place) => place.map(Spot::Place),
        _ => None,
    }
}

/// A value as an index; a negative one is none.
fn index_in(value: Value) -> Option<u32>
    ensures { result ≡ spec_index_in value }
{
    match value {
        Value::Int(number) => u32::try_from(number).ok(),
        Value::Unsigned(number) => Some(number),
        Value::Pointer(_) => None,
    }
}

impl<'t> Layout<'t> {
    /// Where a root is: a global, what a local holds, or the object whose member has the guard.
    fn root(&self, locals: &[Value], owner: Option<u32>, root: Root) -> Option<Spot>
        ensures { result ≡ take_root self.now (slice_get locals.now) owner root }
    {
        match root {
            Root::Global(number) => self.global(number).map(Spot::Place),
            Root::Local(number) => locals.get(number as usize).copied().map(Spot::Holds),
            Root::Owner => owner.map(Spot::Place),
        }
    }

    /// The element of the array at a place whose index a local holds.
    fn variable(&self, locals: &[Value], place: u32, local: u32) -> Option<u32>
        ensures { result ≡ option_and_then (element_place self.now place) (option_and_then spec_index_in (slice_get locals.now local)) }
    {
        let value = locals.get(local as usize).copied()?;
        self.element(place, index_in(value)?)
    }

    /// A step from where a path leads so far.
    fn step(&self, locals: &[Value], step: PathStep, spot: Spot) -> Option<Spot>
        ensures { result ≡ take_step self.now (slice_get locals.now) step spot }
    {
        match (step, spot) {
            (PathStep::Field(number), Spot::Place(place)) => {
                self.member(place, number).map(Spot::Place)
            }
            (PathStep::Constant(index), Spot::Place(place)) => {
                self.element(place, index).map(Spot::Place)
            }
            (PathStep::Variable(local), Spot::Place(place)) => {
                self.variable(locals, place, local).map(Spot::Place)
            }
            (PathStep::Follow, Spot::Place(place)) => pointee(self.initial(place)?),
            (PathStep::Follow, Spot::Holds(value)) => pointee(value),
            (_, Spot::Holds(_)) => None,
        }
    }

    /// A step from where a path leads so far, where it leads anywhere.
    fn onward(&self, locals: &[Value], step: &PathStep, spot: Option<Spot>) -> Option<Spot>
        ensures { result ≡ option_and_then (take_step self.now (slice_get locals.now) step.now) spot }
    {
        self.step(locals, *step, spot?)
    }

    /// The place that a path leads to with the values of locals, where a struct object has the guard; none along null or past an array's
    /// end.
    pub fn evaluate(&self, locals: &[Value], owner: Option<u32>, path: &Path) -> Option<u32>
        ensures { result ≡ evaluated self.now (slice_get locals.now) owner path.now }
    {
        let mut spot = self.root(locals, owner, path.root());
        'each: for step in path.steps() {
            spot = self.onward(locals, step, spot);
        }
        spot?.place()
    }
}
