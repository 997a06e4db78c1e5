//! The names of the try variables of a body.
ghost use Rattle.std.specs.Prelude.{◌≡◌, ◌++◌, List, length, map, option_map, slice_get, IfOk, OnOk};
ghost use Rattle.tsa_core.specs.Programs.{Function, Program};
ghost use Rattle.tsa_rules.specs.Points.{points_of};
ghost use Rattle.tsa_tool_held.specs.Held.{name_if_try, try_names_from};
ghost use Rattle.tsa_tree.specs.statements.Shapes.{point_shape};
ghost use Rattle.tsa_warn.specs.Views.{IsViewOf};
ghost use Rattle.tsa_place_model.specs.Ways.{Way};

use std::alloc::Global;
use tsa_base::NoMemory;
use tsa_rules::Role;
use tsa_tree::stmt::{Action, Point};
use tsa_warn::ToldBody;

/// Notes the name of a try variable where a point begins one.
fn note_try<'a>(names: &mut Vec<&'a [u8]>, point: &Point<'a>, role: Role) -> Result<(), NoMemory>
    ensures { OnOk result (map (λ name. name.now) names.new.items ≡ map (λ name. name.now) names.old.items
        ++ name_if_try role (point_shape point.now)) }
{
    let Role::Declares(_) = role else {
        return Ok(());
    };
    if let Action::Declare(decl) = &point.action {
        names.push(decl.name.text)?;
    }
    Ok(())
}

/// The point of a number.
fn point_at<'t, 'a>(points: &'t [Point<'a>], number: u32) -> Option<&'t Point<'a>>
    ensures { option_map (λ point. point.now) result ≡ slice_get points.now number }
{
    points.get(number as usize)
}

/// The names of the try variables of a body, in order of their declarations. Its points are those of its function.
pub fn try_names<'a>(alloc: Global, body: &ToldBody<'a>) -> Result<Vec<&'a [u8]>, NoMemory>
    ensures { IfOk result (λ names. (u : Program) (f : Function) (paths : List Way) → IsViewOf u f paths body.now.flow.view
        → length (points_of f) ≡ length (map point_shape body.now.head.now.points.now)
        → map (λ name. name.now) names.items ≡ try_names_from u f 0 (map point_shape body.now.head.now.points.now)) }
{
    let view = body.flow.view();
    let mut names = Vec::new(alloc);
    'each: for number in 0..view.marks().rows() {
        if let Some(point) = point_at(body.head.points, number) {
            note_try(&mut names, point, view.role(number))?;
        }
    }
    Ok(names)
}
