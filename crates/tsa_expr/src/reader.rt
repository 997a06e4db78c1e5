//! Expressions are read, one token ahead. At most `NESTING_LIMIT` constructs are open at once, and the recursion is as
//! deep as that: operators after an operand are read by loops.
ghost use Rattle.std.specs.Prelude.{◌≡◌, ◌+◌, ◌≤◌, ◌<◌, length, max, None, Ok, IfOk};
ghost use Rattle.tsa_base.specs.declared.limits.TheConstants.{NESTING_LIMIT};
ghost use Rattle.tsa_tree.specs.expressions.Syntax.{heights};
ghost use Rattle.tsa_tree.specs.Reads.{read, read_on, read_behind};
ghost use Rattle.tsa_tree.specs.Rows.{an_expression, some_arguments, expression as expression_call, operand as operand_call};
ghost use Rattle.tsa_tree.specs.Rows.{series as series_call};
ghost use Rattle.tsa_tree.specs.expressions.Shapes.{shape, shapes};
ghost use Rattle.tsa_tree.specs.tokens.Signs.{sign_at, prefix as spec_prefix};
ghost use Rattle.tsa_expr.specs.Gives.{Gives, Leads};
ghost use Rattle.tsa_expr.specs.Readings.{seen, seen_list, after};

use crate::nodes::{append, into_arena};
use crate::reading::{ArgumentList, Extent, Reading};
use crate::refusal::{SyntaxCode, SyntaxRefusal, refuse};
use crate::sign::prefix;
use crate::source::Reader;
use bumpalo::Bump;
use tsa_base::NESTING_LIMIT;
use tsa_tree::expr::{Expr, ExprKind};
use tsa_tree::sign::Sign;

impl<'a, 't> Reader<'a, 't> {
    ghost use Rattle.tsa_expr.specs.Source.{input, named};

    /// An expression whose operators outside of parentheses bind at least so tight.
    #[cycle(reader)]
    #[tactic(auto, using(crate::proofs::Climbing::expressions))]
    pub fn expression(self, at: u32, depth: u32, tight: u32) -> Result<Reading<'a>, SyntaxRefusal>
        ensures gives { Gives seen result (read (input self.entry) an_expression (expression_call (named self.entry) depth tight) at) }
        ensures begins { IfOk result (λ r. r.start ≡ at) }
        ensures ahead { IfOk result (λ r. r.ahead ≡ sign_at (input self.entry) (named self.entry) r.next) }
        ensures ends { IfOk result (λ r. (at < r.next) × (r.next ≤ length self.entry.tokens.now)) }
    {
        let left = self.operand(at, depth)?;
        self.operations(depth, tight, left)
    }

    /// The expression that begins with a unary that was read.
    #[tactic(auto, using(crate::proofs::Climbing::expressions))]
    pub fn rest(self, depth: u32, left: Reading<'a>) -> Result<Reading<'a>, SyntaxRefusal>
        requires begun { read (input self) an_expression (operand_call (named self) depth) left.start ≡ Ok (shape left.tree, left.next) }
        requires ahead { left.ahead ≡ sign_at (input self) (named self) left.next }
        ensures gives { Gives seen result
            (read (input self.entry) an_expression (expression_call (named self.entry) depth 0) left.entry.start) }
        ensures begins { IfOk result (λ r. r.start ≡ left.entry.start) }
        ensures ahead { IfOk result (λ r. r.ahead ≡ sign_at (input self.entry) (named self.entry) r.next) }
        ensures ends { IfOk result (λ r. (left.entry.start < r.next) × (r.next ≤ length self.entry.tokens.now)) }
    {
        self.operations(depth, 0, left)
    }

    /// The binary operators after a left operand that bind tight enough, each with its right operand.
    #[cycle(reader)]
    #[tactic(auto, using(crate::proofs::Climbing::operations))]
    fn operations(
        self,
        depth: u32,
        tight: u32,
        left: Reading<'a>,
    ) -> Result<Reading<'a>, SyntaxRefusal>
        requires ahead { left.ahead ≡ sign_at (input self) (named self) left.next }
        ensures gives { Gives seen result
            (read_on (input self.entry) (named self.entry) depth tight left.entry.start (shape left.entry.tree) left.entry.next) }
        ensures begins { IfOk result (λ r. r.start ≡ left.entry.start) }
        ensures ahead { IfOk result (λ r. r.ahead ≡ sign_at (input self.entry) (named self.entry) r.next) }
    {
        let mut whole = left;
        'operators: loop {
            let Sign::Operator(op) = whole.ahead else {
                return Ok(whole);
            };
            let tightness = op.level();
            if tightness < tight {
                return Ok(whole);
            }
            if whole.height >= NESTING_LIMIT {
                return Err(refuse(SyntaxCode::LM2, whole.next));
            }
            let right = self.expression(whole.next + 1, depth, tightness + 1)?;
            whole = self.binary(op, whole, right)?;
        }
    }

    /// A unary expression: prefix operators before a primary with its postfix operators.
    #[cycle(reader)]
    #[tactic(auto, using(crate::proofs::Operands::operands))]
    pub fn operand(self, at: u32, depth: u32) -> Result<Reading<'a>, SyntaxRefusal>
        ensures gives { Gives seen result (read (input self.entry) an_expression (operand_call (named self.entry) depth) at) }
        ensures begins { IfOk result (λ r. r.start ≡ at) }
        ensures ahead { IfOk result (λ r. r.ahead ≡ sign_at (input self.entry) (named self.entry) r.next) }
        ensures ends { IfOk result (λ r. (at < r.next) × (r.next ≤ length self.entry.tokens.now)) }
    {
        let sign = self.sign(at);
        match prefix(sign) {
            None => {
                let base = self.primary(at, depth, sign)?;
                self.accesses(depth, base)
            }
            Some(op) => {
                if depth >= NESTING_LIMIT {
                    return Err(refuse(SyntaxCode::LM2, at));
                }
                let inner = self.operand(at + 1, depth + 1)?;
                self.unary(at, op, inner)
            }
        }
    }

    /// The primary or the call that an operand begins with, by its first sign.
    #[cycle(reader)]
    #[tactic(auto, using(crate::proofs::Operands::primaries))]
    fn primary(self, at: u32, depth: u32, sign: Sign) -> Result<Reading<'a>, SyntaxRefusal>
        requires there { sign ≡ sign_at (input self) (named self) at }
        requires plain { spec_prefix sign ≡ None }
        ensures leads { Leads seen result (read (input self.entry) an_expression (operand_call (named self.entry) depth) at)
            (λ x n. read_behind (input self.entry) (named self.entry) depth at x n) }
        ensures begins { IfOk result (λ r. r.start ≡ at) }
        ensures ahead { IfOk result (λ r. r.ahead ≡ sign_at (input self.entry) (named self.entry) r.next) }
    {
        match sign {
            Sign::Number => {
                let (value, unsigned) = self.number(at);
                Ok(self.leaf(at, ExprKind::Number { value, unsigned }, self.sign(at + 1)))
            }
            Sign::Null => Ok(self.leaf(at, ExprKind::Null, self.sign(at + 1))),
            Sign::Name => self.name_or_call(at, depth),
            Sign::Open => {
                if depth >= NESTING_LIMIT {
                    return Err(refuse(SyntaxCode::LM2, at));
                }
                let inner = self.expression(at + 1, depth + 1, 0)?;
                let Sign::Close = inner.ahead else {
                    return Err(refuse(SyntaxCode::SY1, inner.next));
                };
                Ok(Reading {
                    tree: inner.tree,
                    height: inner.height,
                    start: at,
                    next: inner.next + 1,
                    ahead: self.sign(inner.next + 1),
                })
            }
            _ => Err(refuse(SyntaxCode::SY1, at)),
        }
    }

    /// A name, or a call of it.
    #[cycle(reader)]
    #[tactic(auto, using(crate::proofs::Operands::names))]
    fn name_or_call(self, at: u32, depth: u32) -> Result<Reading<'a>, SyntaxRefusal>
        requires there { sign_at (input self) (named self) at ≡ Sign.Name }
        ensures leads { Leads seen result (read (input self.entry) an_expression (operand_call (named self.entry) depth) at)
            (λ x n. read_behind (input self.entry) (named self.entry) depth at x n) }
        ensures begins { IfOk result (λ r. r.start ≡ at) }
        ensures ahead { IfOk result (λ r. r.ahead ≡ sign_at (input self.entry) (named self.entry) r.next) }
    {
        let name = self.name(at)?;
        let ahead = self.sign(at + 1);
        let Sign::Open = ahead else {
            return Ok(self.leaf(at, ExprKind::Named(name), ahead));
        };
        if depth >= NESTING_LIMIT {
            return Err(refuse(SyntaxCode::LM2, at + 1));
        }
        if let Sign::Close = self.sign(at + 1 + 1) {
            let none = ArgumentList {
                items: &[],
                height: 0,
                start: at + 1 + 1,
                next: at + 1 + 1 + 1,
            };
            return Ok(self.call(at, name, none));
        }
        let args = self.arguments(at + 1 + 1, depth + 1)?;
        Ok(self.call(at, name, args))
    }

    /// Expressions separated by commas, and the parenthesis that closes them.
    #[cycle(reader)]
    #[tactic(auto, using(crate::proofs::Listing::arguments))]
    pub fn arguments(self, at: u32, depth: u32) -> Result<ArgumentList<'a>, SyntaxRefusal>
        ensures gives { Gives seen_list result (read (input self.entry) some_arguments (series_call (named self.entry) depth) at) }
        ensures begins { IfOk result (λ r. r.start ≡ at) }
        ensures ends { IfOk result (λ r. (at < r.next) × (r.next ≤ length self.entry.tokens.now)) }
    {
        let mut list = Vec::new(self.bump);
        let extent = self.series(at, depth, &mut list)?;
        Ok(ArgumentList {
            items: into_arena(list),
            height: extent.height,
            start: at,
            next: extent.next,
        })
    }

    /// The same at the end of a list.
    #[cycle(reader)]
    #[tactic(auto, using(crate::proofs::Listing::lists))]
    fn series(
        self,
        at: u32,
        depth: u32,
        list: &mut Vec<Expr<'a>, &'a Bump>,
    ) -> Result<Extent, SyntaxRefusal>
        ensures gives { Gives (λ r. (shapes list.new.items, r.next)) result
            (after (shapes list.old.items) (read (input self.entry) some_arguments (series_call (named self.entry) depth) at)) }
        ensures low { IfOk result (λ r. r.height + at ≤ r.next) }
        ensures high { IfOk result (λ r. max (heights (shapes list.old.items)) r.height ≡ heights (shapes list.new.items)) }
    {
        let mut height = 0;
        let mut next = at;
        'items: loop {
            let item = self.expression(next, depth, 0)?;
            append(list, item.tree)?;
            height = item.height.max(height);
            match item.ahead {
                Sign::Comma => next = item.next + 1,
                Sign::Close => return Ok(Extent {
                    height,
                    next: item.next + 1,
                }),
                _ => return Err(refuse(SyntaxCode::SY1, item.next)),
            }
        }
    }

    /// The postfix operators after an operand.
    #[cycle(reader)]
    #[tactic(auto, using(crate::proofs::Accesses::accesses))]
    fn accesses(self, depth: u32, base: Reading<'a>) -> Result<Reading<'a>, SyntaxRefusal>
        requires ahead { base.ahead ≡ sign_at (input self) (named self) base.next }
        ensures gives { Gives seen result
            (read_behind (input self.entry) (named self.entry) depth base.entry.start (shape base.entry.tree) base.entry.next) }
        ensures begins { IfOk result (λ r. r.start ≡ base.entry.start) }
        ensures ahead { IfOk result (λ r. r.ahead ≡ sign_at (input self.entry) (named self.entry) r.next) }
    {
        let mut whole = base;
        'operators: loop {
            let longer = match whole.ahead {
                Sign::Dot => self.member(depth, whole, false),
                Sign::Arrow => self.member(depth, whole, true),
                Sign::OpenBracket => self.element(depth, whole),
                _ => return Ok(whole),
            };
            whole = longer?;
        }
    }

    /// An index in brackets after an operand.
    #[cycle(reader)]
    #[tactic(auto, using(crate::proofs::Accesses::elements))]
    fn element(self, depth: u32, base: Reading<'a>) -> Result<Reading<'a>, SyntaxRefusal>
        requires there { sign_at (input self) (named self) base.next ≡ Sign.OpenBracket }
        ensures leads { Leads seen result
            (read_behind (input self.entry) (named self.entry) depth base.entry.start (shape base.entry.tree) base.entry.next)
            (λ x n. read_behind (input self.entry) (named self.entry) depth base.entry.start x n) }
        ensures begins { IfOk result (λ r. r.start ≡ base.entry.start) }
        ensures ahead { IfOk result (λ r. r.ahead ≡ sign_at (input self.entry) (named self.entry) r.next) }
        ensures goes { IfOk result (λ r. (base.entry.next < r.next) × (r.next ≤ length self.entry.tokens.now)) }
    {
        if base.height >= NESTING_LIMIT {
            return Err(refuse(SyntaxCode::LM2, base.next));
        }
        if depth >= NESTING_LIMIT {
            return Err(refuse(SyntaxCode::LM2, base.next));
        }
        let index = self.expression(base.next + 1, depth + 1, 0)?;
        let Sign::CloseBracket = index.ahead else {
            return Err(refuse(SyntaxCode::SY1, index.next));
        };
        let span = self.over(base.start, index.next + 1);
        let height = base.height.max(index.height) + 1;
        let kind = ExprKind::Index {
            base: self.keep(base.tree)?,
            index: self.keep(index.tree)?,
        };
        Ok(Reading {
            tree: Expr { kind, span },
            height,
            start: base.start,
            next: index.next + 1,
            ahead: self.sign(index.next + 1),
        })
    }
}
