//! A name that is declared, with its written type: what is wrong with them (C11 6.7p3, 6.7.2).
ghost use Rattle.std.specs.Prelude.{◌≡◌, ◌++◌, Bool, IfOk, OnOk};
ghost use Rattle.tsa_types_expressions.specs.Lengths.{name_premises};
ghost use Rattle.tsa_tree.specs.declarations.Shapes.{type_shape};
ghost use Rattle.tsa_tree.specs.types.DeclaredTypes.{thing_type, typed_premises, declared_premises};
ghost use Rattle.tsa_tree.specs.types.Premises.{or_else, first};
ghost use Rattle.tsa_types_row.specs.BodyRows.{aside_given};

use tsa_base::{NoMemory, Span};
use tsa_tree::decl::CType;
use tsa_tree::kind::Declaring;
use tsa_tree::premise::Failure;
use tsa_types_expressions::{View, Written, first_of, typed_failure};
use tsa_types_row::Row;

/// The written type of what is declared: what it comes to, and whether that may not be declared so.
#[derive(Clone, Copy)]
pub struct Typing {
    pub written: Written,
    pub refused: bool,
}

impl Typing {
    /// What is wrong with a name at a span, taken or not, and with this type of it but for a length.
    pub fn outer_failure(self, taken: bool, span: Span) -> Option<Failure>
        ensures { result ≡ first (name_premises taken self.refused span self.written.resolved) }
    {
        typed_failure(taken, self.refused, span, self.written.resolved)
    }

    /// The same with the length.
    pub fn failure(self, taken: bool, span: Span) -> Option<Failure>
        ensures { result ≡ or_else (first (name_premises taken self.refused span self.written.resolved)) self.written.length }
    {
        first_of(self.outer_failure(taken, span), self.written.length)
    }
}

/// The written type of what is declared, where it isn't known yet. Its length is put into the row.
#[tactic(auto, using(crate::proofs::DeclaredLaws::declared))]
pub fn judge_type(
    view: View<'_, '_>,
    row: &mut Row,
    what: Declaring,
    ctype: &CType<'_>,
) -> Result<Typing, NoMemory>
    ensures thing { IfOk result (λ typing. typing.written.thing ≡ thing_type view.entry.scope.now (type_shape ctype.now)) }
    ensures outer { IfOk result (λ typing. (taken : Bool) (span : Span)
        → first (name_premises taken typing.refused span typing.written.resolved)
        ≡ first (typed_premises view.entry.scope.now what taken span (type_shape ctype.now))) }
    ensures whole { IfOk result (λ typing. (taken : Bool) (span : Span)
        → or_else (first (name_premises taken typing.refused span typing.written.resolved)) typing.written.length
        ≡ first (declared_premises view.entry.scope.now what taken span (type_shape ctype.now))) }
    ensures nodes { OnOk result (row.new ≡ row.old ++ aside_given view.entry.scope.now view.entry.function
        (type_shape ctype.now).length) }
{
    let written = view.written(row, ctype)?;
    let refused = view.is_refused(what, written.resolved);
    Ok(Typing { written, refused })
}
