//! Attributes: what they stand on, and their lock expressions.
ghost use Rattle.std.specs.Prelude.{◌≡◌};
ghost use Rattle.tsa_tree.specs.types.Attributes.{stands_on as spec_stands_on};

use crate::accesses::first_of;
use crate::constants::Found;
use crate::expressions::View;
use crate::verdicts::at;
use tsa_base::{NoMemory, Span};
use tsa_tree::attr::{Attr, AttrKind};
use tsa_tree::expr::Expr;
use tsa_tree::kind::ExpressionType;
use tsa_tree::premise::{Bearer, Failure, TypeCode};
use tsa_types_operators::{struct_of, target};
use tsa_types_row::Row;

/// `capability` stands on structs, `guarded_by` on members and globals, `acquired_before` and `acquired_after` on globals of
/// lock type that are no arrays, and the others on functions.
fn stands_on(kind: AttrKind, bearer: Bearer) -> bool
    ensures { result ≡ spec_stands_on kind bearer }
{
    match kind {
        AttrKind::Capability => bearer == Bearer::Structure,
        AttrKind::GuardedBy => {
            bearer == Bearer::Member || bearer == Bearer::Global || bearer == Bearer::Lock
        }
        AttrKind::AcquiredBefore | AttrKind::AcquiredAfter => bearer == Bearer::Lock,
        _ => bearer == Bearer::Function,
    }
}

impl<'w, 'a> View<'w, 'a> {
    ghost use Rattle.std.specs.Prelude.{◌++◌, IfOk, OnOk};
    ghost use Rattle.tsa_tree.specs.attributes.Syntax.{attr_shape, attr_shapes};
    ghost use Rattle.tsa_tree.specs.expressions.Shapes.{shape, shapes};
    ghost use Rattle.tsa_tree.specs.types.Attributes.{is_lock_type as spec_is_lock_type, argument_premises, lock_premises};
    ghost use Rattle.tsa_tree.specs.types.Attributes.{attribute_premises, attributes_premises};
    ghost use Rattle.tsa_tree.specs.types.Premises.{first};
    ghost use Rattle.tsa_types_row.specs.BodyRows.{aside, aside_all, aside_attributes};
    ghost use Rattle.tsa_types_expressions.specs.Locks.{locked};

    /// Whether it is a lock, or a pointer to one.
    fn is_lock_type(self, t: ExpressionType) -> bool
        ensures { result ≡ spec_is_lock_type self.entry.scope.now t }
    {
        self.scope.is_lock(struct_of(t)) || self.scope.is_lock(target(t))
    }

    /// What is wrong with an argument at a span.
    fn lock_failure(self, span: Span, found: Result<Found, Failure>) -> Option<Failure>
        ensures { result ≡ locked self.entry.scope.now span found }
    {
        match found {
            Err(failure) => Some(failure),
            Ok(found) => {
                if self.is_lock_type(found.thing) {
                    None
                } else {
                    Some(at(TypeCode::TY6, span))
                }
            }
        }
    }

    /// An argument of an attribute, which has to be a lock expression.
    #[tactic(auto, using(crate::proofs::LockLaws::one))]
    fn argument(self, row: &mut Row, arg: &Expr<'_>) -> Result<Option<Failure>, NoMemory>
        ensures judged { IfOk result (λ failure. failure ≡ first (argument_premises self.entry.scope.now (shape arg.now))) }
        ensures nodes { OnOk result (row.new ≡ row.old ++ aside self.entry.scope.now self.entry.function (shape arg.now)) }
    {
        let found = self.aside(row, arg)?;
        Ok(self.lock_failure(arg.span, found))
    }

    /// The arguments of an attribute, in order.
    fn locks(self, row: &mut Row, args: &[Expr<'_>]) -> Result<Option<Failure>, NoMemory>
        ensures judged { IfOk result (λ failure. failure ≡ first (lock_premises self.entry.scope.now (shapes args.now))) }
        ensures nodes { OnOk result (row.new ≡ row.old ++ aside_all self.entry.scope.now self.entry.function (shapes args.now)) }
    {
        let mut failure = None;
        'each: for arg in args {
            failure = first_of(failure, self.argument(row, arg)?);
        }
        Ok(failure)
    }

    /// An attribute, and then its arguments.
    #[tactic(auto, unfolding(tsa_tree::specs::types::Premises::first))]
    fn attribute(
        self,
        row: &mut Row,
        bearer: Bearer,
        attr: &Attr<'_>,
    ) -> Result<Option<Failure>, NoMemory>
        ensures judged { IfOk result (λ failure. failure ≡ first (attribute_premises self.entry.scope.now bearer (attr_shape attr.now))) }
        ensures nodes { OnOk result (row.new ≡ row.old ++ aside_all self.entry.scope.now self.entry.function (attr_shape attr.now).args) }
    {
        let locks = self.locks(row, attr.args)?;
        if stands_on(attr.kind, bearer) {
            Ok(locks)
        } else {
            Ok(Some(at(TypeCode::TY6, attr.span)))
        }
    }

    /// Attributes in order: what is wrong with them. Their arguments are put into the row.
    pub fn attributes(
        self,
        row: &mut Row,
        bearer: Bearer,
        attrs: &[Attr<'_>],
    ) -> Result<Option<Failure>, NoMemory>
        ensures judged { IfOk result (λ failure. failure ≡ first (attributes_premises self.entry.scope.now bearer (attr_shapes attrs.now))) }
        ensures nodes { OnOk result (row.new ≡ row.old ++ aside_attributes self.entry.scope.now self.entry.function
            (attr_shapes attrs.now)) }
    {
        let mut failure = None;
        'each: for attr in attrs {
            failure = first_of(failure, self.attribute(row, bearer, attr)?);
        }
        Ok(failure)
    }
}
