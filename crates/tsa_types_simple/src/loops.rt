//! What stands before the body of a `for` (C11 6.8.5.3): the test is judged where the local of the first part is known.
ghost use Rattle.std.specs.Prelude.{◌≡◌, ◌++◌, IfOk, OnOk, option_map};
ghost use Rattle.tsa_tree.specs.expressions.Shapes.{shape};
ghost use Rattle.tsa_tree.specs.statements.Shapes.{init_given, step_given};
ghost use Rattle.tsa_tree.specs.types.Premises.{first};
ghost use Rattle.tsa_tree.specs.types.Statements.{step_premises, init_premises, behind_init, is_again, for_premises};
ghost use Rattle.tsa_types_row.specs.BodyRows.{row_in_step, row_in_for_init, row_in_for};
ghost use Rattle.tsa_types_simple.specs.Loops.{for_by, given_test as spec_given_test, given_failure};

use crate::leaves::{given_test, simple};
use crate::locals::{Told, declare_local};
use crate::verdicts::tested;
use tsa_base::{NoMemory, Span};
use tsa_tree::expr::Expr;
use tsa_tree::premise::Failure;
use tsa_tree::stmt::{Stmt, StmtKind};
use tsa_types_expressions::{Found, View, first_of};
use tsa_types_row::Row;
use tsa_types_scope::Scope;

/// A `for` before its body.
#[derive(Clone, Copy)]
pub struct ForHead<'t, 'a> {
    pub init: Option<&'t Stmt<'a>>,
    pub test: Option<&'t Expr<'a>>,
    pub step: Option<&'t Stmt<'a>>,
    pub span: Span,
}

impl<'t, 'a> ForHead<'t, 'a> {
    /// The head of a `for` from its parts and its span.
    pub fn new(
        init: Option<&'t Stmt<'a>>,
        test: Option<&'t Expr<'a>>,
        step: Option<&'t Stmt<'a>>,
        span: Span,
    ) -> ForHead<'t, 'a>
        ensures { result ≡ record { init = init.entry; test = test.entry; step = step.entry; span = span } }
    {
        ForHead {
            init,
            test,
            step,
            span,
        }
    }
}

/// What is wrong with a test by itself that may be left out, in a statement that begins at a span.
fn test_failure(span: Span, test: Option<Result<Found, Failure>>) -> Option<Failure>
    ensures { result ≡ spec_given_test span test }
{
    tested(span, test?)
}

/// What is wrong inside an expression that may be left out.
fn inside_failure(test: Option<Result<Found, Failure>>) -> Option<Failure>
    ensures { result ≡ given_failure test }
{
    test?.err()
}

/// What is wrong with a `for` at a span before its body, by its parts: the test by itself comes first, where no local is declared again.
fn for_failure(
    span: Span,
    init: Told,
    test: Option<Result<Found, Failure>>,
    step: Option<Failure>,
) -> Option<Failure>
    ensures { result ≡ for_by span init test step }
{
    let parts = first_of(init.failure, first_of(inside_failure(test), step));
    if init.taken {
        parts
    } else {
        first_of(test_failure(span, test), parts)
    }
}

/// The third part of a `for`, which may be left out. It is put into the row.
#[tactic(auto, using(crate::proofs::LoopLaws::steps, tsa_types_expressions::proofs::RowLaws::notes))]
fn third(
    view: View<'_, '_>,
    row: &mut Row,
    step: Option<&Stmt<'_>>,
) -> Result<Option<Failure>, NoMemory>
    ensures judged { IfOk result (λ failure. failure ≡ first (step_premises view.entry.scope.now (step_given step.entry))) }
    ensures nodes { OnOk result (row.new ≡ row.old
        ++ row_in_step view.entry.scope.now view.entry.function (step_given step.entry)) }
{
    match step {
        Some(part) => simple(view, row, part),
        None => Ok(None),
    }
}

/// The first part of a `for`, which may be left out; a local in it is known behind it.
#[tactic(auto, using(crate::proofs::LoopLaws::inits, tsa_types_expressions::proofs::RowLaws::notes))]
fn first_part<'a>(
    scope: &mut Scope<'a>,
    row: &mut Row,
    function: u32,
    init: Option<&Stmt<'a>>,
) -> Result<Told, NoMemory>
    ensures taken { IfOk result (λ told. told.taken ≡ is_again scope.old (init_given init.entry)) }
    ensures judged { IfOk result (λ told. told.failure ≡ first (init_premises scope.old (init_given init.entry))) }
    ensures behind { OnOk result (scope.new ≡ behind_init scope.old (init_given init.entry)) }
    ensures nodes { OnOk result (row.new ≡ row.old ++ row_in_for_init scope.old function (init_given init.entry)) }
{
    let Some(part) = init else {
        return Ok(Told {
            taken: false,
            failure: None,
        });
    };
    if let StmtKind::Local(decl) = &part.kind {
        return declare_local(scope, row, function, decl);
    }
    Ok(Told {
        taken: false,
        failure: simple(View { scope, function }, row, part)?,
    })
}

/// What stands before the body of a `for`, behind which its local is known. It is put into the row.
#[tactic(auto, unfolding(tsa_types_row::specs::BodyRows::row_in_for), using(crate::proofs::LoopLaws::heads, tsa_types_expressions::proofs::RowLaws::notes))]
pub fn for_head<'a>(
    scope: &mut Scope<'a>,
    row: &mut Row,
    function: u32,
    head: &ForHead<'_, 'a>,
) -> Result<Option<Failure>, NoMemory>
    ensures judged { IfOk result (λ failure. failure
        ≡ first (for_premises scope.old (init_given head.now.init) (option_map (λ x. shape x.now) head.now.test) (step_given head.now.step)
        head.now.span)) }
    ensures behind { OnOk result (scope.new ≡ behind_init scope.old (init_given head.now.init)) }
    ensures nodes { OnOk result (row.new ≡ row.old ++ row_in_for head.now.span scope.old function (init_given head.now.init)
        (option_map (λ x. shape x.now) head.now.test) (step_given head.now.step)) }
{
    let init = first_part(scope, row, function, head.init)?;
    let view = View { scope, function };
    let test = given_test(view, row, head.span, head.test)?;
    let step = third(view, row, head.step)?;
    Ok(for_failure(head.span, init, test, step))
}
