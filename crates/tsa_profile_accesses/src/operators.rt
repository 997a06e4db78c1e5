//! What the profile asks at a node of an expression (C11 6.5.2.2, 6.5.9).
ghost use Rattle.std.specs.Prelude.{◌≡◌, ◌&&◌, is_none, is_some, option_map, option_and_then, slice_get, IfOk};
ghost use Rattle.tsa_core.specs.Meanings.{is_cell};
ghost use Rattle.std.specs.List.{list_any};
ghost use Rattle.tsa_tree.specs.expressions.Shapes.{shape, shapes};
ghost use Rattle.tsa_tree.specs.types.Expressions.{function_of as spec_function_of};
ghost use Rattle.tsa_tree.specs.types.Scopes.{known_in};
ghost use Rattle.tsa_profile_accesses.specs.declared.premise.ProfileCode.TheVariants.{PF2, PF8};
ghost use Rattle.tsa_profile_accesses.specs.Locks.{tries};
ghost use Rattle.tsa_profile_accesses.specs.Expressions.{attributes_at, callee as spec_callee, compares_a_try, constant as spec_constant};
ghost use Rattle.tsa_profile_accesses.specs.Expressions.{is_other as spec_is_other, is_truth as spec_is_truth};
ghost use Rattle.tsa_profile_accesses.specs.Expressions.{is_try_call as spec_is_try_call, lacks_a_path as spec_lacks_a_path};
ghost use Rattle.tsa_profile_accesses.specs.Standing.{beside};
ghost use Rattle.tsa_profile_accesses.specs.NodeAnswers.{call_code as spec_call_code, called_code as spec_called_code};
ghost use Rattle.tsa_profile_accesses.specs.NodeAnswers.{code_if as spec_code_if, is_equality as spec_is_equality, side, sides_code};
ghost use Rattle.tsa_profile_accesses.specs.NodeAnswers.{view_of};

use crate::body::Body;
use crate::{NamedLocks, ProfileCode, Seen, Standing, is_loaded, lack_a_path};
use tsa_base::NoMemory;
use tsa_tree::expr::{BinaryOp, Expr, ExprKind};
use tsa_tree::number::Number;
use tsa_types_expressions::function_of;

/// Where the sides of an operator stand, and what fails there.
#[derive(Clone, Copy)]
pub struct Sides {
    pub left: Standing,
    pub right: Standing,
    pub code: Option<ProfileCode>,
}

/// A binary operator, and where the whole of it stands.
#[derive(Clone, Copy)]
pub struct Operator {
    pub op: BinaryOp,
    pub standing: Standing,
}

/// An operator where the whole of it stands.
pub fn operator_at(op: BinaryOp, standing: Standing) -> Operator
    ensures { result ≡ record { op = op; standing = standing } }
{
    Operator { op, standing }
}

/// A code where something fails.
pub fn code_if(fails: bool, code: ProfileCode) -> Option<ProfileCode>
    ensures { result ≡ spec_code_if fails code }
{
    if fails { Some(code) } else { None }
}

/// Whether a number is 0 or 1.
pub fn is_truth(number: Number) -> bool
    ensures { result ≡ spec_is_truth number }
{
    match number {
        Number::Int(value) => value == 0 || value == 1,
        Number::Unsigned(value) => value == 0 || value == 1,
    }
}

/// Whether a constant is another number than 0 and 1.
fn is_other(value: Option<Number>) -> bool
    ensures { result ≡ spec_is_other value }
{
    match value {
        Some(number) => !is_truth(number),
        None => false,
    }
}

/// Whether an operator is `==` or `!=`.
fn is_equality(op: BinaryOp) -> bool
    ensures { result ≡ spec_is_equality op }
{
    matches!(op, BinaryOp::Equal | BinaryOp::Unequal)
}

impl<'w, 'a> Body<'w, 'a> {
    /// The locks that a function names, by its number.
    fn locks_of(self, function: u32) -> Option<&'w NamedLocks>
        ensures { option_map (λ locks. locks.now) result ≡ slice_get self.entry.attributes.now function }
    {
        self.attributes.get(function as usize)
    }

    /// Whether a function tries.
    fn is_try(self, function: u32) -> bool
        ensures { result ≡ tries (attributes_at self.entry.attributes.now function) }
    {
        match self.locks_of(function) {
            Some(locks) => locks.tries(),
            None => false,
        }
    }

    /// Whether a lock that a function names has no path where it is called.
    fn lacks_a_path(self, function: u32, args: &[Expr<'_>]) -> Result<bool, NoMemory>
        ensures { IfOk result (λ lacks. lacks ≡ spec_lacks_a_path (view_of self.entry) (shapes args.now) function) }
    {
        let Some(locks) = self.locks_of(function) else {
            return Ok(false);
        };
        let paths = self.paths_for(self.sight.scope.params(function), args)?;
        locks.lack_a_path(self.sight.scope.allocator(), &paths)
    }

    /// What fails of a function that is called where a call may stand.
    fn called_code(
        self,
        standing: Standing,
        function: u32,
        args: &[Expr<'_>],
    ) -> Result<Option<ProfileCode>, NoMemory>
        ensures { IfOk result (λ code. code ≡ spec_called_code (view_of self.entry) standing (shapes args.now) function) }
    {
        if self.lacks_a_path(function, args)? {
            return Ok(Some(ProfileCode::PF2));
        }
        Ok(code_if(
            self.is_try(function) && !standing.may_try(),
            ProfileCode::PF5,
        ))
    }

    /// What fails at a call: only one that may stand where it does is asked for its paths.
    pub fn call_code(
        self,
        standing: Standing,
        function: Option<u32>,
        args: &[Expr<'_>],
    ) -> Result<Option<ProfileCode>, NoMemory>
        ensures { IfOk result (λ code. code ≡ spec_call_code (view_of self.entry) standing (shapes args.now) function) }
    {
        if !standing.may_call() {
            return Ok(Some(ProfileCode::PF1));
        }
        match function {
            Some(function) => self.called_code(standing, function, args),
            None => Ok(None),
        }
    }

    /// The function that a name stands for, by its number.
    pub fn function(self, name: &[u8]) -> Option<u32>
        ensures { result ≡ option_and_then (λ e. spec_function_of e.meaning) (known_in self.entry.sight.scope.now name.now) }
    {
        function_of(self.sight.scope.known(name)?)
    }

    /// The function that an expression calls, by its number.
    fn callee(self, expr: &Expr<'_>) -> Option<u32>
        ensures { result ≡ spec_callee (view_of self.entry) (shape expr.now) }
    {
        match &expr.kind {
            ExprKind::Call { callee, .. } => self.function(callee.text),
            _ => None,
        }
    }

    /// Whether an expression is the call of a function that tries.
    pub fn is_try_call(self, expr: &Expr<'_>) -> bool
        ensures { result ≡ spec_is_try_call (view_of self.entry) (shape expr.now) }
    {
        match self.callee(expr) {
            Some(function) => self.is_try(function),
            None => false,
        }
    }

    /// What an expression is worth, where it is a constant.
    fn constant(self, expr: &Expr<'_>) -> Result<Option<Number>, NoMemory>
        ensures { IfOk result (λ value. value ≡ spec_constant (view_of self.entry) (shape expr.now)) }
    {
        self.sight.value_at(expr)
    }

    /// What is asked of the sides of `==` or `!=`.
    fn equality_sides(
        self,
        standing: Standing,
        left: &Expr<'_>,
        right: &Expr<'_>,
    ) -> Result<Sides, NoMemory>
        ensures { IfOk result (λ sides. sides
            ≡ record {
              left = beside standing (is_some (spec_constant (view_of self.entry) (shape right.now)));
              right = beside standing
                  (is_some (spec_constant (view_of self.entry) (shape left.now)));
              code = spec_code_if
                  (compares_a_try (view_of self.entry) (shape left.now) (shape right.now)) PF8;
            }) }
    {
        let first = self.constant(left)?;
        let second = self.constant(right)?;
        let fails = (self.is_try_call(left) && is_other(second))
            || (self.is_try_call(right) && is_other(first));
        Ok(Sides {
            left: standing.beside(second.is_some()),
            right: standing.beside(first.is_some()),
            code: code_if(fails, ProfileCode::PF8),
        })
    }

    /// What is asked of the sides of an operator: the constants of `==` and `!=` alone count.
    pub fn sides_of(
        self,
        operator: Operator,
        left: &Expr<'_>,
        right: &Expr<'_>,
    ) -> Result<Sides, NoMemory>
        ensures { IfOk result (λ sides. sides
            ≡ record {
              left = side (view_of self.entry) operator.standing operator.op (shape right.now);
              right = side (view_of self.entry)
                  operator.standing operator.op (shape left.now);
              code = sides_code (view_of self.entry) operator.op (shape left.now)
                  (shape right.now);
            }) }
    {
        if is_equality(operator.op) {
            return self.equality_sides(operator.standing, left, right);
        }
        Ok(Sides {
            left: Standing::Inside,
            right: Standing::Inside,
            code: None,
        })
    }

    /// What fails where the value of what was seen is used: a thread that works it out reads a cell whose guards have paths.
    pub fn guard_code(self, seen: &Seen) -> Option<ProfileCode>
        ensures { result ≡ spec_code_if ((self.entry.is_run && (seen.now.thing.is_place && is_cell seen.now.thing.expression.thing))
            && list_any is_none seen.now.guards) PF2 }
    {
        let is_read = self.is_run && is_loaded(seen.thing);
        code_if(is_read && lack_a_path(&seen.guards), ProfileCode::PF2)
    }
}
