//! Statements (C11 6.8): each is judged where what stands before it is known, and a block's names end with it.
ghost use Rattle.std.specs.Prelude.{◌≡◌, ◌++◌, IfOk, OnOk};

use crate::leaves::leaf;
use crate::walk::Walk;
use tsa_base::{NoMemory, Span};
use tsa_tree::decl::Decl;
use tsa_tree::expr::Expr;
use tsa_tree::premise::Failure;
use tsa_tree::stmt::{Stmt, StmtKind};
use tsa_types_expressions::{TypeRefusal, View, first_of, judged, refused};
use tsa_types_row::{Op, Row};
use tsa_types_scope::Cases;
use tsa_types_simple::{
    Around, ForHead, Key, collect_cases, declare_local, first_default, for_head, point_at,
    switched, tested,
};

/// The test of a `do`, and where the statement begins.
#[derive(Clone, Copy)]
struct Tail<'t, 'a> {
    span: Span,
    test: &'t Expr<'a>,
}

impl<'t, 'a> Tail<'t, 'a> {
    /// A test behind a statement that begins at a span.
    fn new(span: Span, test: &'t Expr<'a>) -> Tail<'t, 'a>
        ensures { result ≡ record { span = span; test = test.entry } }
    {
        Tail { span, test }
    }
}

impl<'a> Walk<'a> {
    ghost use Rattle.std.specs.Prelude.{◌+◌, ◌∷◌, [], option_map};
    ghost use Rattle.tsa_tree.specs.declarations.Shapes.{decl_shape};
    ghost use Rattle.tsa_tree.specs.expressions.Shapes.{shape};
    ghost use Rattle.tsa_tree.specs.types.Locals.{local_premises, behind_local};
    ghost use Rattle.tsa_tree.specs.statements.Shapes.{stmt_shape, stmt_shapes, init_given, step_given};
    ghost use Rattle.tsa_tree.specs.types.Expressions.{premises_of};
    ghost use Rattle.tsa_tree.specs.types.Operands.{is_scalar, is_integer};
    ghost use Rattle.tsa_tree.specs.types.Premises.{or_else, first};
    ghost use Rattle.tsa_tree.specs.types.Scopes.{context_of, further};
    ghost use Rattle.tsa_tree.specs.types.Simple.{tested as spec_tested, tested_premises};
    ghost use Rattle.tsa_tree.specs.types.Statements.{in_a_loop, in_a_switch, behind_init, case_premises, for_premises, leaf_premises};
    ghost use Rattle.tsa_tree.specs.types.Statements.{statement_premises, statements_premises, behind, behind_all};
    ghost use Rattle.tsa_types_row.specs.BodyRows.{aside, marked_row, row_in_for, row_in_leaf, row_in_local, row_in_statement};
    ghost use Rattle.tsa_types_row.specs.BodyRows.{row_in_statements, row_in_test};
    ghost use Rattle.tsa_types_row.specs.declared.node.Op.TheVariants as op;
    ghost use Rattle.tsa_tree.specs.points.Syntax.{expression_span};
    ghost use Rattle.tsa_tree.specs.types.Targets.{declared_by_init, declared_in, declared_in_all};
    ghost use Rattle.tsa_types_expressions.specs.Judgements.{Judges};

    /// A test of a statement that begins at a span. It is put into the row.
    #[tactic(auto, using(tsa_types_simple::proofs::SimpleLaws::tests))]
    fn test(
        &mut self,
        function: u32,
        span: Span,
        test: &Expr<'_>,
    ) -> Result<Option<Failure>, NoMemory>
        ensures judged { IfOk result (λ failure. failure
            ≡ first (tested_premises (context_of self.old.scope) is_scalar span (shape test.now))) }
        ensures kept { OnOk result (self.new.scope ≡ self.old.scope) }
        ensures nodes { OnOk result (self.new.row ≡ self.old.row ++ row_in_test self.old.scope function (shape test.now)) }
    {
        let view = View {
            scope: &self.scope,
            function,
        };
        let found = point_at(view, &mut self.row, Op::Test { given: true }, test)?;
        Ok(first_of(tested(span, found), found.err()))
    }

    /// The value of a `switch` that begins at a span. It is put into the row.
    #[tactic(auto, using(tsa_types_simple::proofs::SimpleLaws::tests))]
    fn value(
        &mut self,
        function: u32,
        span: Span,
        value: &Expr<'_>,
    ) -> Result<Option<Failure>, NoMemory>
        ensures judged { IfOk result (λ failure. failure
            ≡ first (tested_premises (context_of self.old.scope) is_integer span (shape value.now))) }
        ensures kept { OnOk result (self.new.scope ≡ self.old.scope) }
        ensures nodes { OnOk result (self.new.row ≡ self.old.row ++ marked_row op.Branch (expression_span (shape value.now)) self.old.scope function (shape value.now)) }
    {
        let view = View {
            scope: &self.scope,
            function,
        };
        let found = point_at(view, &mut self.row, Op::Branch, value)?;
        Ok(first_of(switched(span, found), found.err()))
    }

    /// The test of a `do` by itself, which is judged at its first word; it is put into the row behind its body.
    #[tactic(auto, using(tsa_types_simple::proofs::SimpleLaws::tests))]
    fn test_ahead(&self, span: Span, test: &Expr<'_>) -> Result<Option<Failure>, NoMemory>
        ensures judged { IfOk result (λ failure. failure
            ≡ first (spec_tested (context_of self.now.scope) is_scalar span (shape test.now) ∷ [])) }
    {
        let view = View {
            scope: &self.scope,
            function: 0,
        };
        let mut unheard = Row::new(self.scope.allocator());
        let found = view.expression(&mut unheard, test)?;
        Ok(tested(span, found))
    }

    /// The test of a `do` behind its body. It is put into the row.
    #[tactic(auto, using(tsa_types_simple::proofs::SimpleLaws::tests, crate::proofs::StatementLaws::judges_it))]
    fn evaluate(&mut self, function: u32, expr: &Expr<'_>) -> Result<(), TypeRefusal>
        ensures judged { Judges (first (premises_of (context_of self.old.scope) (shape expr.now))) result }
        ensures kept { OnOk result (self.new.scope ≡ self.old.scope) }
        ensures nodes { OnOk result (self.new.row ≡ self.old.row ++ row_in_test self.old.scope function (shape expr.now)) }
    {
        let view = View {
            scope: &self.scope,
            function,
        };
        let found = point_at(view, &mut self.row, Op::Test { given: true }, expr)?;
        judged(found.err())
    }

    /// A case at a span, but for its statement. Its value is put into the row.
    #[tactic(auto, using(tsa_types_simple::proofs::CaseLaws::cases))]
    fn case(
        &mut self,
        around: &Around<'_, '_>,
        span: Span,
        value: &Expr<'_>,
    ) -> Result<Option<Failure>, NoMemory>
        ensures judged { IfOk result (λ failure. failure
            ≡ first (case_premises around.now (context_of self.old.scope) (shape value.now) span)) }
        ensures kept { OnOk result (self.new.scope ≡ self.old.scope) }
        ensures nodes { OnOk result (self.new.row ≡ self.old.row ++ aside self.old.scope around.now.function (shape value.now)) }
    {
        let view = View {
            scope: &self.scope,
            function: around.function,
        };
        let found = view.aside(&mut self.row, value)?;
        let key = Key {
            span: value.span,
            found,
        };
        Ok(around.case_failure(span, key))
    }

    /// A local, which is known behind it. It is put into the row.
    #[tactic(auto, using(crate::proofs::StatementLaws::judges_it))]
    fn local(&mut self, function: u32, decl: &Decl<'a>) -> Result<(), TypeRefusal>
        ensures judged { Judges (first (local_premises self.old.scope (decl_shape decl.now))) result }
        ensures behind { OnOk result (self.new.scope ≡ behind_local self.old.scope (decl_shape decl.now)) }
        ensures nodes { OnOk result (self.new.row ≡ self.old.row ++ row_in_local self.old.scope function (decl_shape decl.now)) }
    {
        let told = declare_local(&mut self.scope, &mut self.row, function, decl)?;
        judged(told.failure)
    }

    /// A statement that has no other in it and declares nothing. It is put into the row.
    #[tactic(auto, using(crate::proofs::StatementLaws::judges_it))]
    fn alone(&mut self, around: &Around<'_, '_>, stmt: &Stmt<'_>) -> Result<(), TypeRefusal>
        ensures judged { Judges (first (leaf_premises around.now self.old.scope (stmt_shape stmt.now.kind stmt.now.span))) result }
        ensures kept { OnOk result (self.new.scope ≡ self.old.scope) }
        ensures nodes { OnOk result (self.new.row ≡ self.old.row
            ++ row_in_leaf self.old.scope around.now.function (stmt_shape stmt.now.kind stmt.now.span)) }
    {
        let view = View {
            scope: &self.scope,
            function: around.function,
        };
        judged(leaf(view, &mut self.row, around, stmt)?)
    }

    /// A statement, behind which its local is known.
    #[cycle(stating)]
    #[tactic(auto, unfolding(tsa_tree::specs::types::Statements::behind, tsa_tree::specs::types::Targets::declared_in, tsa_types_row::specs::BodyRows::row_in_statement), using(crate::proofs::StatementLaws::wrongs, crate::proofs::StatementRows::namings))]
    fn statement(&mut self, around: &Around<'_, 'a>, stmt: &Stmt<'a>) -> Result<(), TypeRefusal>
        ensures judged { Judges (first (statement_premises around.now self.old.scope (stmt_shape stmt.now.kind stmt.now.span))) result }
        ensures behind { OnOk result (self.new.scope ≡ behind self.old.scope (stmt_shape stmt.now.kind stmt.now.span)) }
        ensures nodes { OnOk result (self.new.row ≡ self.old.row
            ++ row_in_statement self.old.scope around.now.function (stmt_shape stmt.now.kind stmt.now.span)) }
    {
        let at = stmt.span;
        match &stmt.kind {
            StmtKind::Block(items) => self.block(around, items),
            StmtKind::If { test, yes, no } => {
                let wrong = self.test(around.function, at, test)?;
                self.after(around, wrong, yes)?;
                match no {
                    Some(no) => self.nested(around, no),
                    None => Ok(()),
                }
            }
            StmtKind::While { test, body } => {
                let wrong = self.test(around.function, at, test)?;
                self.after(&around.in_a_loop(), wrong, body)
            }
            StmtKind::DoWhile { body, test } => self.do_loop(around, body, Tail::new(at, test)),
            StmtKind::For {
                init,
                test,
                step,
                body,
            } => {
                let head = ForHead::new(*init, *test, *step, at);
                self.for_loop(around, &head, body)
            }
            StmtKind::Switch { value, body } => {
                let wrong = self.value(around.function, at, value)?;
                self.switch(around, wrong, body)
            }
            StmtKind::Case { value, body } => {
                let wrong = self.case(around, at, value)?;
                self.after(around, wrong, body)
            }
            StmtKind::Otherwise { body } => self.after(around, around.default_failure(at), body),
            StmtKind::Label { name, body } => {
                self.after(around, around.label_failure(*name, at), body)
            }
            StmtKind::Local(decl) => self.local(around.function, decl),
            _ => self.alone(around, stmt),
        }
    }

    /// A statement in another, whose names end with it.
    #[cycle(stating)]
    #[tactic(auto, using(crate::proofs::Closing::closing))]
    fn nested(&mut self, around: &Around<'_, 'a>, stmt: &Stmt<'a>) -> Result<(), TypeRefusal>
        ensures judged { Judges (first (statement_premises around.now self.old.scope (stmt_shape stmt.now.kind stmt.now.span))) result }
        ensures behind { OnOk result (self.new.scope ≡ further (declared_in (stmt_shape stmt.now.kind stmt.now.span)) self.old.scope) }
        ensures nodes { OnOk result (self.new.row ≡ self.old.row
            ++ row_in_statement self.old.scope around.now.function (stmt_shape stmt.now.kind stmt.now.span)) }
    {
        let names = self.scope.names_len();
        self.statement(around, stmt)?;
        self.scope.close(names);
        Ok(())
    }

    /// A statement in another, of which what stands before it may be wrong.
    #[cycle(stating)]
    #[tactic(auto, using(tsa_types_expressions::proofs::Sequences::judges_rest))]
    fn after(
        &mut self,
        around: &Around<'_, 'a>,
        wrong: Option<Failure>,
        body: &Stmt<'a>,
    ) -> Result<(), TypeRefusal>
        ensures judged { Judges (or_else wrong
            (first (statement_premises around.now self.old.scope (stmt_shape body.now.kind body.now.span)))) result }
        ensures behind { OnOk result (self.new.scope ≡ further (declared_in (stmt_shape body.now.kind body.now.span)) self.old.scope) }
        ensures nodes { OnOk result (self.new.row ≡ self.old.row
            ++ row_in_statement self.old.scope around.now.function (stmt_shape body.now.kind body.now.span)) }
    {
        if let Some(failure) = wrong {
            return Err(refused(failure));
        }
        self.nested(around, body)
    }

    /// A `do`, whose test stands behind its body and is judged by itself at its first word.
    #[cycle(stating)]
    #[tactic(auto, using(tsa_types_expressions::proofs::RowLaws::notes))]
    fn do_loop(
        &mut self,
        around: &Around<'_, 'a>,
        body: &Stmt<'a>,
        tail: Tail<'_, 'a>,
    ) -> Result<(), TypeRefusal>
        ensures judged { Judges (first (spec_tested (context_of self.old.scope) is_scalar tail.entry.span (shape tail.entry.test.now) ∷
            statement_premises (in_a_loop around.now) self.old.scope (stmt_shape body.now.kind body.now.span)
            ++ premises_of (context_of self.old.scope) (shape tail.entry.test.now))) result }
        ensures behind { OnOk result (self.new.scope ≡ further (declared_in (stmt_shape body.now.kind body.now.span)) self.old.scope) }
        ensures nodes { OnOk result (self.new.row ≡ self.old.row
            ++ (row_in_statement self.old.scope around.now.function (stmt_shape body.now.kind body.now.span)
            ++ row_in_test self.old.scope around.now.function (shape tail.entry.test.now))) }
    {
        let wrong = self.test_ahead(tail.span, tail.test)?;
        if let Err(refusal) = self.after(&around.in_a_loop(), wrong, body) {
            return Err(refusal);
        }
        self.evaluate(around.function, tail.test)
    }

    /// A `for`, whose local ends with it.
    #[cycle(stating)]
    #[tactic(auto, using(crate::proofs::Closing::closing, tsa_types_expressions::proofs::Sequences::judged_some, tsa_types_expressions::proofs::Sequences::judged_rest, tsa_types_expressions::proofs::RowLaws::notes))]
    fn for_loop(
        &mut self,
        around: &Around<'_, 'a>,
        head: &ForHead<'_, 'a>,
        body: &Stmt<'a>,
    ) -> Result<(), TypeRefusal>
        ensures judged { Judges (first (for_premises self.old.scope (init_given head.now.init) (option_map (λ x. shape x.now) head.now.test)
            (step_given head.now.step) head.now.span
            ++ statement_premises (in_a_loop around.now) (behind_init self.old.scope (init_given head.now.init))
            (stmt_shape body.now.kind body.now.span))) result }
        ensures behind { OnOk result (self.new.scope
            ≡ further (declared_by_init (init_given head.now.init) + declared_in (stmt_shape body.now.kind body.now.span)) self.old.scope) }
        ensures nodes { OnOk result (self.new.row ≡ self.old.row
            ++ (row_in_for head.now.span self.old.scope around.now.function (init_given head.now.init) (option_map (λ x. shape x.now) head.now.test)
            (step_given head.now.step) ++ row_in_statement (behind_init self.old.scope (init_given head.now.init)) around.now.function
            (stmt_shape body.now.kind body.now.span))) }
    {
        let names = self.scope.names_len();
        let wrong = for_head(&mut self.scope, &mut self.row, around.function, head)?;
        if let Err(refusal) = self.after(&around.in_a_loop(), wrong, body) {
            return Err(refusal);
        }
        self.scope.close(names);
        Ok(())
    }

    /// The body of a `switch`, where its cases are known; its value may be wrong.
    #[cycle(stating)]
    fn switch(
        &mut self,
        around: &Around<'_, 'a>,
        wrong: Option<Failure>,
        body: &Stmt<'a>,
    ) -> Result<(), TypeRefusal>
        ensures judged { Judges (or_else wrong
            (first (statement_premises (in_a_switch self.old.scope (stmt_shape body.now.kind body.now.span) around.now) self.old.scope
            (stmt_shape body.now.kind body.now.span)))) result }
        ensures behind { OnOk result (self.new.scope ≡ further (declared_in (stmt_shape body.now.kind body.now.span)) self.old.scope) }
        ensures nodes { OnOk result (self.new.row ≡ self.old.row
            ++ row_in_statement self.old.scope around.now.function (stmt_shape body.now.kind body.now.span)) }
    {
        let mut cases = Cases::new(self.scope.allocator());
        let view = View {
            scope: &self.scope,
            function: around.function,
        };
        collect_cases(view, &mut cases, body)?;
        let inside = around.in_a_switch(&cases, first_default(body));
        self.after(&inside, wrong, body)
    }

    /// The statements of a block, whose names end with it.
    #[cycle(stating)]
    #[tactic(auto, using(crate::proofs::Closing::closing))]
    fn block(&mut self, around: &Around<'_, 'a>, items: &[Stmt<'a>]) -> Result<(), TypeRefusal>
        ensures judged { Judges (first (statements_premises around.now self.old.scope (stmt_shapes items.now))) result }
        ensures behind { OnOk result (self.new.scope ≡ further (declared_in_all (stmt_shapes items.now)) self.old.scope) }
        ensures nodes { OnOk result (self.new.row ≡ self.old.row
            ++ row_in_statements self.old.scope around.now.function (stmt_shapes items.now)) }
    {
        let names = self.scope.names_len();
        self.statements(around, items)?;
        self.scope.close(names);
        Ok(())
    }

    /// Statements, each of which is judged where the locals before it are known.
    #[cycle(stating)]
    pub fn statements(
        &mut self,
        around: &Around<'_, 'a>,
        items: &[Stmt<'a>],
    ) -> Result<(), TypeRefusal>
        ensures judged { Judges (first (statements_premises around.now self.old.scope (stmt_shapes items.now))) result }
        ensures behind { OnOk result (self.new.scope ≡ behind_all self.old.scope (stmt_shapes items.now)) }
        ensures nodes { OnOk result (self.new.row ≡ self.old.row
            ++ row_in_statements self.old.scope around.now.function (stmt_shapes items.now)) }
    {
        'each: for stmt in items {
            if let Err(refusal) = self.statement(around, stmt) {
                return Err(refusal);
            }
        }
        Ok(())
    }
}
