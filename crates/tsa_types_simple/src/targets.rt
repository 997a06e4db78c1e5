//! Where jumps go: the labels of a body, and the cases of a switch, each by the first one (C11 6.8.1, 6.8.4.2).
ghost use Rattle.std.specs.Prelude.{◌≡◌, OnOk, IfOk};
ghost use Rattle.tsa_tree.specs.expressions.Shapes.{shape};
ghost use Rattle.tsa_tree.specs.statements.Shapes.{stmt_shape, stmt_shapes};
ghost use Rattle.tsa_tree.specs.types.DeclaredTypes.{value_in};
ghost use Rattle.tsa_tree.specs.types.Scopes.{context_of};
ghost use Rattle.tsa_tree.specs.types.Targets.{with_label, labels_behind, labels_behind_all, with_value, cases_behind, cases_behind_all};
ghost use Rattle.tsa_tree.specs.types.Targets.{or_place as spec_or_place, default_in, default_in_all};

use tsa_base::NoMemory;
use tsa_tree::number::Number;
use tsa_tree::stmt::{Stmt, StmtKind};
use tsa_types_expressions::View;
use tsa_types_scope::{Cases, Names};

/// A further label, where none of its name is known.
fn note_label<'a>(labels: &mut Names<'a, u32>, text: &'a [u8], place: u32) -> Result<(), NoMemory>
    ensures { OnOk result (labels.new ≡ with_label text.now place labels.old) }
{
    labels.declare(text, place)?;
    Ok(())
}

/// The labels in a statement, behind those that are known.
#[cycle(labelling)]
#[tactic(auto, unfolding(tsa_tree::specs::types::Targets::labels_behind, tsa_tree::specs::types::Targets::labels_behind_all))]
fn collect_labels<'a>(labels: &mut Names<'a, u32>, stmt: &Stmt<'a>) -> Result<(), NoMemory>
    ensures { OnOk result (labels.new ≡ labels_behind labels.old (stmt_shape stmt.now.kind stmt.now.span)) }
{
    match &stmt.kind {
        StmtKind::Block(items) => collect_all_labels(labels, items),
        StmtKind::If { yes, no, .. } => {
            collect_labels(labels, yes)?;
            match no {
                Some(no) => collect_labels(labels, no),
                None => Ok(()),
            }
        }
        StmtKind::While { body, .. } => collect_labels(labels, body),
        StmtKind::DoWhile { body, .. } => collect_labels(labels, body),
        StmtKind::For { body, .. } => collect_labels(labels, body),
        StmtKind::Switch { body, .. } => collect_labels(labels, body),
        StmtKind::Case { body, .. } => collect_labels(labels, body),
        StmtKind::Otherwise { body } => collect_labels(labels, body),
        StmtKind::Label { name, body } => {
            note_label(labels, name.text, stmt.span.from)?;
            collect_labels(labels, body)
        }
        _ => Ok(()),
    }
}

/// The labels in statements, behind those that are known.
#[cycle(labelling)]
#[tactic(auto, unfolding(tsa_tree::specs::types::Targets::labels_behind, tsa_tree::specs::types::Targets::labels_behind_all))]
pub fn collect_all_labels<'a>(
    labels: &mut Names<'a, u32>,
    items: &[Stmt<'a>],
) -> Result<(), NoMemory>
    ensures { OnOk result (labels.new ≡ labels_behind_all labels.old (stmt_shapes items.now)) }
{
    'each: for stmt in items {
        collect_labels(labels, stmt)?;
    }
    Ok(())
}

/// A further case, where its value is a constant.
fn note_case(cases: &mut Cases, value: Option<Number>, place: u32) -> Result<(), NoMemory>
    ensures { OnOk result (cases.new ≡ with_value value place cases.old) }
{
    match value {
        Some(number) => cases.note(number.to_unsigned(), place),
        None => Ok(()),
    }
}

/// The cases of a switch in a statement, behind those that are known: those of a switch inside are that one's.
#[cycle(casing)]
#[tactic(auto, unfolding(tsa_tree::specs::types::Targets::cases_behind, tsa_tree::specs::types::Targets::cases_behind_all))]
pub fn collect_cases(view: View<'_, '_>, cases: &mut Cases, stmt: &Stmt<'_>) -> Result<(), NoMemory>
    ensures { OnOk result (cases.new ≡ cases_behind (value_in (context_of view.entry.scope.now)) cases.old
        (stmt_shape stmt.now.kind stmt.now.span)) }
{
    match &stmt.kind {
        StmtKind::Block(items) => collect_all_cases(view, cases, items),
        StmtKind::If { yes, no, .. } => {
            collect_cases(view, cases, yes)?;
            match no {
                Some(no) => collect_cases(view, cases, no),
                None => Ok(()),
            }
        }
        StmtKind::While { body, .. } => collect_cases(view, cases, body),
        StmtKind::DoWhile { body, .. } => collect_cases(view, cases, body),
        StmtKind::For { body, .. } => collect_cases(view, cases, body),
        StmtKind::Case { value, body } => {
            note_case(cases, view.value(value)?, stmt.span.from)?;
            collect_cases(view, cases, body)
        }
        StmtKind::Otherwise { body } => collect_cases(view, cases, body),
        StmtKind::Label { body, .. } => collect_cases(view, cases, body),
        _ => Ok(()),
    }
}

/// The cases of a switch in statements, behind those that are known.
#[cycle(casing)]
#[tactic(auto, unfolding(tsa_tree::specs::types::Targets::cases_behind, tsa_tree::specs::types::Targets::cases_behind_all))]
fn collect_all_cases(
    view: View<'_, '_>,
    cases: &mut Cases,
    items: &[Stmt<'_>],
) -> Result<(), NoMemory>
    ensures { OnOk result (cases.new ≡ cases_behind_all (value_in (context_of view.entry.scope.now)) cases.old (stmt_shapes items.now)) }
{
    'each: for stmt in items {
        collect_cases(view, cases, stmt)?;
    }
    Ok(())
}

/// The first of two places.
fn or_place(first: Option<u32>, other: Option<u32>) -> Option<u32>
    ensures { result ≡ spec_or_place first other }
{
    match first {
        Some(place) => Some(place),
        None => other,
    }
}

/// Where the first default of a switch in a statement stands.
#[cycle(defaulting)]
#[tactic(auto, unfolding(tsa_tree::specs::types::Targets::default_in, tsa_tree::specs::types::Targets::default_in_all))]
pub fn first_default(stmt: &Stmt<'_>) -> Option<u32>
    ensures { result ≡ default_in (stmt_shape stmt.now.kind stmt.now.span) }
{
    match &stmt.kind {
        StmtKind::Block(items) => first_of_defaults(items),
        StmtKind::If { yes, no, .. } => {
            let first = first_default(yes);
            match no {
                Some(no) => or_place(first, first_default(no)),
                None => first,
            }
        }
        StmtKind::While { body, .. } => first_default(body),
        StmtKind::DoWhile { body, .. } => first_default(body),
        StmtKind::For { body, .. } => first_default(body),
        StmtKind::Case { body, .. } => first_default(body),
        StmtKind::Otherwise { .. } => Some(stmt.span.from),
        StmtKind::Label { body, .. } => first_default(body),
        _ => None,
    }
}

/// Where the first default of a switch in statements stands.
#[cycle(defaulting)]
#[tactic(auto, unfolding(tsa_tree::specs::types::Targets::default_in, tsa_tree::specs::types::Targets::default_in_all))]
fn first_of_defaults(items: &[Stmt<'_>]) -> Option<u32>
    ensures { result ≡ default_in_all (stmt_shapes items.now) }
{
    'each: for stmt in items {
        if let Some(place) = first_default(stmt) {
            return Some(place);
        }
    }
    None
}
