//! Expressions are found to be what they are, and put into the row (C11 6.5). The recursion is as deep as the tree is high.
ghost use Rattle.std.specs.Prelude.{◌≡◌, slice_get, option_map};

use crate::accesses::{
    Arguments, call_verdict, first_of, function_of, member_verdict, owner, worse,
};
use crate::constants::{Found, null, number};
use crate::nodes::{Mark, bare_node, call_op, callee_node, found_node, member_op, name_op};
use crate::verdicts::{at, binary_verdict, index_verdict, name_verdict, prefix_verdict};
use tsa_base::{NoMemory, Span};
use tsa_tree::expr::{Expr, ExprKind, Name};
use tsa_tree::kind::ThingType;
use tsa_tree::meaning::Entry;
use tsa_tree::premise::{Failure, TypeCode};
use tsa_types_row::{Op, Row};
use tsa_types_scope::Scope;

/// What an expression sees: what is known where it stands, and the number of the function that it stands in, or 0 outside of all.
#[derive(Clone, Copy)]
pub struct View<'w, 'a> {
    pub scope: &'w Scope<'a>,
    pub function: u32,
}

/// The use of a member: where the whole of it stands, the member's name, and whether an arrow stands before it.
#[derive(Clone, Copy)]
struct Access<'n> {
    span: Span,
    name: Name<'n>,
    arrow: bool,
}

/// What the node of an expression is, and what the expression is found to be.
#[derive(Clone, Copy)]
struct Part {
    mark: Mark,
    found: Result<Found, Failure>,
}

impl Part {
    /// What is at a span, with what it is found to be.
    fn new(op: Op, span: Span, found: Result<Found, Failure>) -> Part
        ensures { result ≡ record { mark = record { op = op; span = span }; found = found } }
    {
        Part {
            mark: Mark::new(op, span),
            found,
        }
    }
}

/// The parameter of a number.
fn param_at(params: &[ThingType], number: usize) -> Option<ThingType>
    ensures { result ≡ slice_get params.now number }
{
    params.get(number).copied()
}

/// The type of a member that was found with its number.
fn member_thing(member: Option<(usize, ThingType)>) -> Option<ThingType>
    ensures { result ≡ option_map (λ m. m.1) member }
{
    match member {
        Some((_, thing)) => Some(thing),
        None => None,
    }
}

impl<'w, 'a> View<'w, 'a> {
    ghost use Rattle.std.specs.Prelude.{◌++◌, not, nat_eq, length, IfOk, OnOk};
    ghost use Rattle.tsa_tree.specs.expressions.Shapes.{name_shape, shape, shapes};
    ghost use Rattle.tsa_tree.specs.types.Expressions.{types_of, arguments_break};
    ghost use Rattle.tsa_tree.specs.expressions.Syntax.{named};
    ghost use Rattle.tsa_tree.specs.types.Scopes.{context_of, known_in};
    ghost use Rattle.tsa_types_row.specs.ExpressionRows.{name_op as spec_name_op};
    ghost use Rattle.tsa_types_row.specs.BodyRows.{aside, marked_row};
    ghost use Rattle.tsa_types_expressions.specs.Found.{found_in};
    ghost use Rattle.tsa_types_expressions.specs.Parts.{field_part, found_thing, params_seen};
    ghost use Rattle.tsa_types_row.specs.ExpressionRows.{member_of, member_op as spec_member_op, op_in, node_span};
    ghost use Rattle.tsa_types_row.specs.ExpressionRows.{row_in, row_in_all};
    ghost use Rattle.tsa_types_expressions.specs.RowParts.{parts_in};
    ghost use Rattle.tsa_types_expressions.specs.Verdicts.{failure_of_all};

    /// The parameters of a function that a name stands for.
    fn params(self, entry: Option<Entry>) -> &'w [ThingType]
        ensures { result.now ≡ params_seen (context_of self.entry.scope.now) entry }
    {
        match entry {
            Some(entry) => match function_of(entry) {
                Some(function) => self.scope.params(function),
                None => &[],
            },
            None => &[],
        }
    }

    /// A member by its name, with its number, of what was found to have it.
    fn member(self, access: Access<'_>, base: Result<Found, Failure>) -> Option<(usize, ThingType)>
        ensures { result ≡ member_of self.entry.scope.now access.entry.arrow access.entry.name.text.now (found_thing base) }
    {
        let structure = owner(access.arrow, base.ok()?.thing)?;
        self.scope.find_member(structure, access.name.text)
    }

    /// A member by its name, with its number: what has none is told at the whole, a member that isn't there at its name.
    #[tactic(auto, using(crate::proofs::MemberLaws::members))]
    fn field(self, access: Access<'_>, base: Result<Found, Failure>) -> Part
        ensures op { result.mark.op ≡ spec_member_op access.entry.arrow
            (member_of self.entry.scope.now access.entry.arrow access.entry.name.text.now (found_thing base)) }
        ensures span { result.mark.span ≡ access.entry.span }
        ensures found { result.found
            ≡ field_part (context_of self.entry.scope.now) access.entry.span (name_shape access.entry.name) access.entry.arrow base }
    {
        let member = self.member(access, base);
        let op = member_op(access.arrow, member);
        let found = match base {
            Err(failure) => Err(failure),
            Ok(base) => {
                if owner(access.arrow, base.thing).is_some() {
                    member_verdict(access.name.span, access.arrow, base, member_thing(member))
                } else {
                    Err(at(TypeCode::TY3, access.span))
                }
            }
        };
        Part::new(op, access.span, found)
    }

    /// A name that stands alone.
    #[tactic(auto, using(crate::proofs::FoundLaws::steps))]
    fn named(self, name: Name<'_>) -> Part
        ensures op { result.mark.op ≡ spec_name_op self.entry.function (known_in self.entry.scope.now name.entry.text.now) }
        ensures span { result.mark.span ≡ name.entry.span }
        ensures found { result.found ≡ found_in (context_of self.entry.scope.now) (named (name_shape name.entry) name.entry.span) }
    {
        let entry = self.scope.known(name.text);
        let op = name_op(self.function, entry);
        Part::new(op, name.span, name_verdict(name.span, entry))
    }

    /// What an expression is found to be, or the first premise that fails in it. It is put into the row, in front of its parts.
    #[cycle(typing)]
    #[tactic(auto, using(crate::proofs::RowLaws::notes, crate::proofs::RowLaws::whole))]
    pub fn expression(
        self,
        row: &mut Row,
        expr: &Expr<'_>,
    ) -> Result<Result<Found, Failure>, NoMemory>
        ensures judged { IfOk result (λ found. found ≡ found_in (context_of self.entry.scope.now) (shape expr.now)) }
        ensures nodes { OnOk result (row.new ≡ row.old ++ row_in self.entry.scope.now self.entry.function (shape expr.now)) }
    {
        let place = row.open()?;
        let part = self.parts(row, expr)?;
        row.close(place, found_node(part.mark, part.found))?;
        Ok(part.found)
    }

    /// What the node of an expression is, behind which its parts are put, and what the expression is found to be.
    #[cycle(typing)]
    #[tactic(auto, unfolding(crate::specs::RowParts::parts_in), using(crate::proofs::FoundLaws::steps, crate::proofs::RowLaws::notes))]
    fn parts(self, row: &mut Row, expr: &Expr<'_>) -> Result<Part, NoMemory>
        ensures op { IfOk result (λ part. part.mark.op ≡ op_in self.entry.scope.now self.entry.function (shape expr.now)) }
        ensures span { IfOk result (λ part. part.mark.span ≡ node_span (shape expr.now)) }
        ensures found { IfOk result (λ part. part.found ≡ found_in (context_of self.entry.scope.now) (shape expr.now)) }
        ensures nodes { OnOk result (row.new ≡ row.old ++ parts_in self.entry.scope.now self.entry.function (shape expr.now)) }
    {
        let span = expr.span;
        match &expr.kind {
            ExprKind::Number { value, unsigned } => {
                Ok(Part::new(Op::Number, span, Ok(number(*value, *unsigned))))
            }
            ExprKind::Null => Ok(Part::new(Op::Null, span, Ok(null()))),
            ExprKind::Named(name) => Ok(self.named(*name)),
            ExprKind::Call { callee, args } => {
                let entry = self.scope.known(callee.text);
                row.leaf(callee_node(self.function, *callee, entry))?;
                let told = self.arguments(row, self.params(entry), args)?;
                let found = call_verdict(callee.span, span, entry, told);
                Ok(Part::new(call_op(entry, args.len()), span, found))
            }
            ExprKind::Unary { op, inner } => {
                let inner = self.expression(row, inner)?;
                Ok(Part::new(Op::Unary(*op), span, prefix_verdict(*op, span, inner)))
            }
            ExprKind::Binary { op, left, right } => {
                let left = self.expression(row, left)?;
                let right = self.expression(row, right)?;
                let found = binary_verdict(*op, span, left, right);
                Ok(Part::new(Op::Binary(*op), span, found))
            }
            ExprKind::Field { base, name, arrow } => {
                let base = self.expression(row, base)?;
                let access = Access {
                    span,
                    name: *name,
                    arrow: *arrow,
                };
                Ok(self.field(access, base))
            }
            ExprKind::Index { base, index } => {
                let base = self.expression(row, base)?;
                let index = self.expression(row, index)?;
                Ok(Part::new(Op::Index, span, index_verdict(span, base, index)))
            }
        }
    }

    /// Arguments in order, each beside its parameter.
    #[cycle(typing)]
    #[tactic(auto, using(crate::proofs::Walk::lists, crate::proofs::RowLaws::notes))]
    fn arguments(
        self,
        row: &mut Row,
        params: &[ThingType],
        args: &[Expr<'_>],
    ) -> Result<Arguments, NoMemory>
        ensures breaks { IfOk result (λ all. all.breaks
            ≡ arguments_break params.now (types_of (context_of self.entry.scope.now) (shapes args.now))) }
        ensures miscounts { IfOk result (λ all. all.miscounts ≡ not (nat_eq (length params.now) (length args.now))) }
        ensures failure { IfOk result (λ all. all.failure ≡ failure_of_all (context_of self.entry.scope.now) (shapes args.now)) }
        ensures nodes { OnOk result (row.new ≡ row.old ++ row_in_all self.entry.scope.now self.entry.function (shapes args.now)) }
    {
        let mut breaks = false;
        let mut failure = None;
        let mut number = 0;
        'each: for arg in args {
            let found = self.expression(row, arg)?;
            breaks = worse(breaks, found, param_at(params, number));
            failure = first_of(failure, found.err());
            number += 1;
        }
        Ok(Arguments {
            breaks,
            miscounts: params.len() != args.len(),
            failure,
        })
    }

    /// An expression as the only part of a node.
    #[tactic(auto, unfolding(tsa_types_row::specs::BodyRows::marked_row), using(crate::proofs::RowLaws::notes))]
    pub fn marked(
        self,
        row: &mut Row,
        mark: Mark,
        expr: &Expr<'_>,
    ) -> Result<Result<Found, Failure>, NoMemory>
        ensures judged { IfOk result (λ found. found ≡ found_in (context_of self.entry.scope.now) (shape expr.now)) }
        ensures nodes { OnOk result (row.new
            ≡ row.old ++ marked_row mark.op mark.span self.entry.scope.now self.entry.function (shape expr.now)) }
    {
        let place = row.open()?;
        let found = self.expression(row, expr)?;
        row.close(place, bare_node(mark))?;
        Ok(found)
    }

    /// An expression that no thread works out.
    pub fn aside(self, row: &mut Row, expr: &Expr<'_>) -> Result<Result<Found, Failure>, NoMemory>
        ensures judged { IfOk result (λ found. found ≡ found_in (context_of self.entry.scope.now) (shape expr.now)) }
        ensures nodes { OnOk result (row.new ≡ row.old ++ aside self.entry.scope.now self.entry.function (shape expr.now)) }
    {
        self.marked(row, Mark::new(Op::Aside, expr.span), expr)
    }
}
