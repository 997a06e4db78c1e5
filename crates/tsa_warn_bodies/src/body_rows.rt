//! What is told of a body.
ghost use Rattle.std.specs.Prelude.{◌≡◌, [], ◌∷◌, List, IfOk, OnOk};
ghost use Rattle.tsa_warn_bodies.specs.Bodies.{BodyText, Tells, body_by};
ghost use Rattle.tsa_warn_bodies.specs.BodyCourses.{course_of};
ghost use Rattle.tsa_warn_bodies.specs.Courses.{IsInFrontOf, course_behind};
ghost use Rattle.tsa_warn_bodies.specs.BodyEntries.{IsBodyAt, labels_at};
ghost use Rattle.tsa_profile_context.specs.Units.{unit_of};
ghost use Rattle.tsa_rules.specs.Legends.{names_in};
ghost use Rattle.tsa_warn_text.specs.Orders.{texts_of};
ghost use Rattle.tsa_tree.specs.declared.item.Item.TheVariants.{Function};
ghost use Rattle.tsa_tree.specs.units.Shapes.{HasItsPoints, HaveTheirPoints, item_shape, item_shapes};
ghost use Rattle.tsa_tree.specs.units.Syntax.{UnitItem};

use crate::course::Course;
use tsa_base::NoMemory;
use tsa_flow::{FunctionFlow, Pass};
use tsa_rules_bodies::{Inside, enter_item, leave_body, pass};
use tsa_tree::item::{FnTree, Item};
use tsa_warn_text::{FunctionNames, PathTexts, body_names};

/// What is told of a body: the function, what walks bring to its points, and the texts of its paths.
pub struct ToldBody<'a> {
    pub head: &'a FnTree<'a>,
    pub flow: FunctionFlow<'a>,
    pub texts: PathTexts,
}

impl Drop for ToldBody<'_> {
    /// Lets its parts go, in one call for all who let one go.
    fn drop(self) {
        let ToldBody {
            head: _,
            flow: _,
            texts: _,
        } = self;
    }
}

/// A unit in the profile whose bodies are told one by one.
#[derive(Clone, Copy)]
pub struct Teller<'w, 'a> {
    pub pass: Pass<'w, 'a>,
}

/// A body that is entered: the number of its function, and its tree.
#[derive(Clone, Copy)]
struct Entered<'a> {
    number: u32,
    head: &'a FnTree<'a>,
}

impl<'w, 'a> Teller<'w, 'a> {
    /// The texts of the paths of the function whose body is entered.
    fn texts(
        &self,
        course: &Course<'a>,
        body: Entered<'a>,
        flow: &FunctionFlow<'a>,
    ) -> Result<PathTexts, NoMemory>
        ensures { IfOk result (λ texts. texts
            ≡ texts_of (names_in self.now.pass.ground.layout.now
            (labels_at (course_of course.now) body.entry.number body.entry.head.now flow.now)) flow.now.view.numbers) }
    {
        let scope = &course.known.scope;
        let view = flow.view();
        let first = course.first(body.number).unwrap_or(&[]);
        let locals = body_names(scope, body.head, first, view.declared_kinds())?;
        let names = FunctionNames {
            layout: self.pass.ground.layout,
            locals: &locals,
        };
        PathTexts::new(scope.allocator(), &names, view.numbers())
    }

    /// What is told of the body that is entered.
    fn body(
        &self,
        course: &mut Course<'a>,
        inside: &Inside<'a>,
        head: &'a FnTree<'a>,
    ) -> Result<Option<ToldBody<'a>>, NoMemory>
        requires stands { (b : BodyText) × IsBodyAt (item_shapes self.now.pass.ground.items.now) b (course_of course.old) inside.now
            head.now }
        ensures known { OnOk result (course_of course.new ≡ course_of course.old) }
        ensures told { IfOk result (λ told. (b : BodyText)
            → IsBodyAt (item_shapes self.now.pass.ground.items.now) b (course_of course.old) inside.now head.now
            → Tells (item_shapes self.now.pass.ground.items.now) (b ∷ []) told) }
    {
        let Some(paths) = self.pass.fit.paths(inside.number) else {
            return Ok(None);
        };
        let flow = self.pass.flow_in(&mut course.known, inside, paths)?;
        let body = Entered {
            number: inside.number,
            head,
        };
        let texts = self.texts(course, body, &flow)?;
        Ok(Some(ToldBody { head, flow, texts }))
    }

    /// What is told of the body of a function that has one; of another one nothing is.
    fn function(
        &self,
        course: &mut Course<'a>,
        item: &'a Item<'a>,
        head: &'a FnTree<'a>,
    ) -> Result<Option<ToldBody<'a>>, NoMemory>
        requires is { item.now ≡ Function head.now }
        requires ahead { (rest : List UnitItem)
            × IsInFrontOf (item_shapes self.now.pass.ground.items.now) (item_shape item.now ∷ rest) (course_of course.old) }
        requires points { HasItsPoints head.now }
        ensures behind { OnOk result (course_of course.new ≡ course_behind (unit_of [] (item_shapes self.now.pass.ground.items.now))
            (course_of course.old) (item_shape item.now)) }
        ensures told { IfOk result (λ told. Tells (item_shapes self.now.pass.ground.items.now)
            (body_by (course_of course.old).known.here (item_shape item.now)) told) }
    {
        course.note(head)?;
        let Some(inside) = enter_item(&self.pass.ground, &mut course.known, item)? else {
            return Ok(None);
        };
        let told = self.body(course, &inside, head)?;
        leave_body(&mut course.known, &inside);
        Ok(told)
    }

    /// What is told of the body that an item has; of another item nothing is. The item is the first of those that are left, and its points
    /// are those of the text.
    pub fn item(
        &self,
        course: &mut Course<'a>,
        item: &'a Item<'a>,
    ) -> Result<Option<ToldBody<'a>>, NoMemory>
        requires ahead { (rest : List UnitItem)
            × IsInFrontOf (item_shapes self.now.pass.ground.items.now) (item_shape item.now ∷ rest) (course_of course.old) }
        requires points { HaveTheirPoints (item.now ∷ []) }
        ensures behind { OnOk result (course_of course.new ≡ course_behind (unit_of [] (item_shapes self.now.pass.ground.items.now))
            (course_of course.old) (item_shape item.now)) }
        ensures told { IfOk result (λ told. Tells (item_shapes self.now.pass.ground.items.now)
            (body_by (course_of course.old).known.here (item_shape item.now)) told) }
    {
        match item {
            Item::Function(head) => self.function(course, item, head),
            _ => {
                pass(&self.pass.ground, &mut course.known, item)?;
                Ok(None)
            }
        }
    }
}
