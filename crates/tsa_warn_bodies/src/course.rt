//! What is known in front of an item, with the parameters of the functions that are declared.
ghost use Rattle.std.specs.Prelude.{◌≡◌, option_map, slice_get, IfOk, OnOk};
ghost use Rattle.tsa_warn_bodies.specs.BodyCourses.{course_of};
ghost use Rattle.tsa_warn_bodies.specs.Courses.{course_outset, with_first};
ghost use Rattle.tsa_profile_context.specs.Judging.{unit_at};
ghost use Rattle.tsa_tree.specs.declarations.Shapes.{param_shapes};
ghost use Rattle.tsa_tree.specs.units.Shapes.{function_shape};

use std::alloc::Global;
use tsa_base::NoMemory;
use tsa_profile_context::Ground;
use tsa_rules_bodies::{Knowledge, outset};
use tsa_tree::item::{FnTree, Param};

/// What is known in front of an item of a unit, and the parameters of each function that is declared, by its number, as they are declared
/// first.
pub struct Course<'a> {
    pub(crate) known: Knowledge<'a>,
    pub(crate) firsts: Vec<&'a [Param<'a>]>,
}

impl Drop for Course<'_> {
    /// Lets its parts go, in one call for all who let one go.
    fn drop(self) {
        let Course {
            known: _,
            firsts: _,
        } = self;
    }
}

impl<'a> Course<'a> {
    /// What is known in front of the first item of a unit.
    pub fn new(alloc: Global, ground: &Ground<'_, 'a>) -> Result<Course<'a>, NoMemory>
        ensures { IfOk result (λ course. course_of course ≡ course_outset (unit_at ground.now)) }
    {
        Ok(Course {
            known: outset(alloc, ground)?,
            firsts: Vec::new(alloc),
        })
    }

    /// Notes the parameters of a function that is declared for the first time.
    pub(crate) fn note(&mut self, head: &'a FnTree<'a>) -> Result<(), NoMemory>
        ensures { OnOk result (course_of self.new ≡ with_first (course_of self.old) (function_shape head.now)) }
    {
        if self.known.scope.declared(head.name.text).is_none() {
            self.firsts.push(head.params)?;
        }
        Ok(())
    }

    /// The parameters of a function by its number, as they are declared first, where it is declared.
    pub(crate) fn first(&self, function: u32) -> Option<&'a [Param<'a>]>
        ensures { option_map (λ params. param_shapes params.now) result ≡ slice_get (course_of self.now).firsts function }
    {
        self.firsts.get(function as usize).copied()
    }
}
