//! What the locals are named that a body declares.
ghost use Rattle.std.specs.Prelude.{◌≡◌, ◌++◌, map, IfOk, OnOk};
ghost use Rattle.tsa_core.specs.Bodies.{known_in_body};
ghost use Rattle.tsa_warn_text.specs.DeclaredNames.{AreOfBody, declared_texts, labels_with, text_by};
ghost use Rattle.tsa_path.specs.Labels.{label};
ghost use Rattle.tsa_rules.specs.Legends.{declared_labels};
ghost use Rattle.tsa_tree.specs.statements.Shapes.{action_shape, point_shape};
ghost use Rattle.tsa_tree.specs.statements.Syntax.{Statements};
ghost use Rattle.tsa_tree.specs.types.Scopes.{Scope};

use crate::labels::label_of;
use std::alloc::Global;
use tsa_base::NoMemory;
use tsa_path::Named;
use tsa_tree::kind::Kind;
use tsa_tree::stmt::{Action, Point};

/// Notes the name that is declared at a point, where one is.
fn note_text<'a>(texts: &mut Vec<&'a [u8]>, action: &Action<'a>) -> Result<(), NoMemory>
    ensures { OnOk result (map (λ text. text.now) texts.new.items ≡ map (λ text. text.now) texts.old.items
        ++ text_by (action_shape action.now)) }
{
    if let Action::Declare(decl) = action {
        texts.push(decl.name.text)?;
    }
    Ok(())
}

/// The names that are declared at points, in order.
fn texts_at<'a>(alloc: Global, points: &[Point<'a>]) -> Result<Vec<&'a [u8]>, NoMemory>
    ensures { IfOk result (λ texts. map (λ text. text.now) texts.items ≡ declared_texts (map point_shape points.now)) }
{
    let mut texts = Vec::new(alloc);
    'each: for point in points {
        note_text(&mut texts, &point.action)?;
    }
    Ok(texts)
}

/// What the locals are named that a body declares, in order, by its points and the kinds of these locals.
pub fn declared_names<'a>(
    alloc: Global,
    points: &[Point<'a>],
    kinds: &[Kind],
) -> Result<Vec<Named<'a>>, NoMemory>
    ensures by { IfOk result (λ names. map label names.items ≡ labels_with (declared_texts (map point_shape points.now)) kinds.now) }
    ensures are { (here : Scope) (body : Statements) → AreOfBody (map point_shape points.now) kinds.now here body
        → IfOk result (λ names. map label names.items ≡ declared_labels (known_in_body here body)) }
{
    let texts = texts_at(alloc, points)?;
    let mut names = Vec::new(alloc);
    'each: for (text, kind) in texts.iter().zip(kinds) {
        names.push(label_of(text, *kind))?;
    }
    Ok(names)
}
