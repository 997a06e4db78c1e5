//! Where the arguments of an expression's call lead (C11 6.5.2.2).
ghost use Rattle.std.specs.Prelude.{◌≡◌, option_map, IfOk};
ghost use Rattle.tsa_core.specs.Uses.{argument_ways, call_ways, called_ways};
ghost use Rattle.tsa_tree.specs.expressions.Shapes.{shape, shapes};
ghost use Rattle.tsa_place_model.specs.LockPaths.{stable_in};
ghost use Rattle.tsa_profile_accesses.specs.Arguments.{arguments_of};

use crate::body::Body;
use tsa_base::NoMemory;
use tsa_place_model::Path;
use tsa_tree::expr::{BinaryOp, Expr, ExprKind, UnaryOp};
use tsa_tree::kind::ThingType;
use tsa_tree::meaning::Entry;
use tsa_types_expressions::function_of;

impl<'w, 'a> Body<'w, 'a> {
    /// The paths of arguments beside their parameters, as many as there are of both.
    pub fn paths_for(
        self,
        params: &[ThingType],
        args: &[Expr<'_>],
    ) -> Result<Vec<Option<Path>>, NoMemory>
        ensures { IfOk result (λ paths. paths.items ≡ argument_ways (stable_in self.entry.sight.stable.now) self.entry.sight.scope.now
            params.now (shapes args.now)) }
    {
        let mut paths = Vec::new(self.sight.scope.allocator());
        let mut number = 0;
        'each: while number < params.len() && number < args.len() {
            paths.push(
                self.sight
                    .argument_path(params[number].kind, &args[number])?,
            )?;
            number += 1;
        }
        Ok(paths)
    }

    /// The paths of the arguments of a function that a name stands for.
    fn called_paths(
        self,
        entry: Option<Entry>,
        args: &[Expr<'_>],
    ) -> Result<Option<Vec<Option<Path>>>, NoMemory>
        ensures { IfOk result (λ paths. option_map (λ paths. paths.items) paths
            ≡ called_ways (stable_in self.entry.sight.stable.now) self.entry.sight.scope.now (shapes args.now) entry) }
    {
        let Some(entry) = entry else {
            return Ok(None);
        };
        match function_of(entry) {
            Some(function) => {
                let params = self.sight.scope.params(function);
                Ok(Some(self.paths_for(params, args)?))
            }
            None => Ok(None),
        }
    }

    /// Those of the call of an expression: the whole of it, or in a condition behind `!` or beside `==` or `!=`.
    #[tactic(auto, unfolding(tsa_core::specs::Uses::call_ways))]
    fn call_paths(self, expr: &Expr<'_>) -> Result<Option<Vec<Option<Path>>>, NoMemory>
        ensures { IfOk result (λ paths. option_map (λ paths. paths.items) paths
            ≡ call_ways (stable_in self.entry.sight.stable.now) self.entry.sight.scope.now (shape expr.now)) }
    {
        match &expr.kind {
            ExprKind::Call { callee, args } => {
                self.called_paths(self.sight.scope.known(callee.text), args)
            }
            ExprKind::Unary {
                op: UnaryOp::Not,
                inner,
            } => self.call_paths(inner),
            ExprKind::Binary {
                op: BinaryOp::Equal | BinaryOp::Unequal,
                left,
                right,
            } => match self.call_paths(left)? {
                Some(paths) => Ok(Some(paths)),
                None => self.call_paths(right),
            },
            _ => Ok(None),
        }
    }

    /// Where the arguments of an expression's call lead; none where it has no call.
    pub fn argument_paths(self, expr: &Expr<'_>) -> Result<Vec<Option<Path>>, NoMemory>
        ensures { IfOk result (λ paths. paths.items ≡ arguments_of (stable_in self.entry.sight.stable.now) self.entry.sight.scope.now
            (shape expr.now)) }
    {
        match self.call_paths(expr)? {
            Some(paths) => Ok(paths),
            None => Ok(Vec::new(self.sight.scope.allocator())),
        }
    }
}
