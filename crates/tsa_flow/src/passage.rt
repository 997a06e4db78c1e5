//! The bodies of a unit, one by one.
ghost use Rattle.std.specs.Prelude.{◌≡◌, ◌<◌, ◌∷◌, ℕ, [], List, None, Some, length, slice_get, IfOk, OnOk, IsTrue, IsFalse};
ghost use Rattle.tsa_core.specs.Programs.{program_of};
ghost use Rattle.tsa_flow_function.specs.Numbers.{IsFlowIn};
ghost use Rattle.tsa_flow.specs.Units.{AreAhead, AreTold, IsBodyOf, IsNext, IsTold, Puts, told_at};
ghost use Rattle.tsa_flow_function.specs.Kinds.{kinds_of};
ghost use Rattle.tsa_profile_context.specs.Judging.{unit_at};
ghost use Rattle.tsa_rules_bodies.specs.Knowing.{behind};
ghost use Rattle.tsa_tree.specs.types.Premises as types;
ghost use Rattle.tsa_tree.specs.types.Units as typed;
ghost use Rattle.tsa_tree.specs.units.Shapes.{item_shape, item_shapes, HaveTheirPoints};
ghost use Rattle.tsa_tree.specs.units.Syntax.{UnitItem};

use std::alloc::Global;
use tsa_base::NoMemory;
use tsa_flow_function::{FunctionFlow, LockKind, Unit};
use tsa_graph::blocks_of;
use tsa_path::PathTable;
use tsa_profile_context::Ground;
use tsa_rules_bodies::{Fit, Inside, Knowledge, control_of, enter_item, leave_body, outset};
use tsa_tree::item::Item;

/// What walks bring to the points of functions, by their numbers, as far as they are told.
pub type Flows<'a> = Vec<Option<FunctionFlow<'a>>>;

/// A unit in the profile, with all that its bodies are gone through with.
#[derive(Clone, Copy)]
pub struct Pass<'w, 'a> {
    pub items: &'a [Item<'a>],
    pub ground: Ground<'w, 'a>,
    pub kinds: &'w [Option<LockKind<'a>>],
    pub fit: &'w Fit<'a>,
    pub ghost judged: { ground.items ≡ items },
    pub ghost fits: { fit.now.typed.unit.now.items ≡ items },
    pub ghost inside: { ground.outside.now ≡ [] },
    pub ghost locks: { kinds_of kinds.now ≡ (program_of (item_shapes ground.items.now)).locks },
}

/// Whether a function is told, by its number.
fn has(flows: &[Option<FunctionFlow<'_>>], number: u32) -> bool
    ensures yes { IsTrue result → told_at flows.now number ≡ None → ⊥ }
    ensures no { IsFalse result → told_at flows.now number ≡ None }
{
    matches!(flows.get(number as usize), Some(Some(_)))
}

/// Makes room for a number.
fn make_room<'a>(flows: &mut Flows<'a>, number: u32) -> Result<(), NoMemory>
    ensures long { OnOk result (number < length flows.new.items) }
    ensures same { OnOk result ((n : ℕ) → told_at flows.new.items n ≡ told_at flows.old.items n) }
{
    'each: for _ in flows.len()..number as usize + 1 {
        flows.push(None)?;
    }
    Ok(())
}

/// Tells a function by its number.
fn put<'a>(flows: &mut Flows<'a>, number: u32, flow: FunctionFlow<'a>) -> Result<(), NoMemory>
    ensures { OnOk result (Puts flows.old.items number flow.entry flows.new.items) }
{
    make_room(flows, number)?;
    flows[number as usize] = Some(flow);
    Ok(())
}

impl<'w, 'a> Pass<'w, 'a> {
    /// What walks bring to the points of a body that is entered, by the paths of its function.
    pub fn flow_in(
        &self,
        known: &mut Knowledge<'a>,
        inside: &Inside<'a>,
        paths: &PathTable,
    ) -> Result<FunctionFlow<'a>, NoMemory>
        requires stands { IsBodyOf (item_shapes self.now.ground.items.now) inside.now.number paths.now known.old inside.now }
        ensures known { OnOk result (known.new ≡ known.old) }
        ensures flow { IfOk result (λ flow. IsFlowIn (program_of (item_shapes self.now.ground.items.now))
            (slice_get (program_of (item_shapes self.now.ground.items.now)).functions inside.now.number) (Some flow)) }
    {
        let alloc = known.scope.allocator();
        let graph = control_of(known, inside)?;
        let unit = Unit {
            layout: self.ground.layout,
            kinds: self.kinds,
        };
        let view = unit.view(known, inside, paths)?;
        let points = view.marks().rows();
        let blocks = blocks_of(alloc, graph, points)?;
        FunctionFlow::new(alloc, view, blocks)
    }

    /// Tells the function of a body that is entered, where it has paths and isn't told yet.
    fn tell(
        &self,
        known: &mut Knowledge<'a>,
        flows: &mut Flows<'a>,
        inside: &Inside<'a>,
    ) -> Result<(), NoMemory>
        requires next { IsNext (item_shapes self.now.ground.items.now) known.old inside.now flows.old.items inside.now.number }
        ensures known { OnOk result (known.new ≡ known.old) }
        ensures told { OnOk result (IsTold (item_shapes self.now.ground.items.now) flows.new.items inside.now.number) }
        ensures others { OnOk result ((n : ℕ) → (n ≡ inside.now.number → ⊥) → told_at flows.new.items n ≡ told_at flows.old.items n) }
    {
        let Some(paths) = self.fit.paths(inside.number) else {
            return Ok(());
        };
        if has(flows, inside.number) {
            return Ok(());
        }
        let flow = self.flow_in(known, inside, paths)?;
        put(flows, inside.number, flow)
    }

    /// Goes through an item in front of others: its body is told where it has one.
    fn item(
        &self,
        known: &mut Knowledge<'a>,
        flows: &mut Flows<'a>,
        item: &'a Item<'a>,
    ) -> Result<(), NoMemory>
        requires typed { types.first (typed.item_premises known.old.here (item_shape item.now)) ≡ None }
        requires points { ∥ HaveTheirPoints (item.now ∷ []) ∥₁ }
        requires ahead { (rest : List UnitItem)
            × AreAhead (item_shapes self.now.ground.items.now) known.old (item_shape item.now ∷ rest) flows.old.items }
        ensures known { OnOk result (known.new ≡ behind (unit_at self.now.ground) known.old (item_shape item.now)) }
        ensures ahead { OnOk result ((rest : List UnitItem)
            → AreAhead (item_shapes self.now.ground.items.now) known.old (item_shape item.now ∷ rest) flows.old.items
            → AreAhead (item_shapes self.now.ground.items.now) known.new rest flows.new.items) }
    {
        if let Some(inside) = enter_item(&self.ground, known, item)? {
            self.tell(known, flows, &inside)?;
            leave_body(known, &inside);
        }
        Ok(())
    }

    /// What walks bring to the points of all functions.
    pub fn flows(&self, alloc: Global) -> Result<Flows<'a>, NoMemory>
        ensures { IfOk result (λ flows. AreTold (item_shapes self.now.ground.items.now) flows.items) }
    {
        let mut known = outset(alloc, &self.ground)?;
        let mut flows = Vec::new(alloc);
        'each: for item in self.ground.items {
            self.item(&mut known, &mut flows, item)?;
        }
        Ok(flows)
    }
}
