//! The types of declarations (C11 6.7.2, 6.7.3, 6.7.6): what a written type is, and what is wrong with it.
ghost use Rattle.std.specs.Prelude.{◌≡◌, is_some};
ghost use Rattle.tsa_tree.specs.types.Premises.{first};
ghost use Rattle.tsa_tree.specs.types.DeclaredTypes.{of_struct as spec_of_struct, of_enum as spec_of_enum, of_alias as spec_of_alias};
ghost use Rattle.tsa_tree.specs.types.DeclaredTypes.{qualified as spec_qualified, declared_as as spec_declared_as};
ghost use Rattle.tsa_tree.specs.types.DeclaredTypes.{length_in as spec_length_in, as_length as spec_as_length, with_length};
ghost use Rattle.tsa_tree.specs.types.DeclaredTypes.{is_nothing as spec_is_nothing, unknown_tag};
ghost use Rattle.tsa_types_expressions.specs.Lengths.{told_of as spec_told_of, name_premises};

use crate::constants::Found;
use crate::expressions::View;
use crate::verdicts::at;
use tsa_base::{NoMemory, PLACE_LIMIT, Span};
use tsa_tree::decl::{BaseType, CType};
use tsa_tree::expr::Expr;
use tsa_tree::kind::{Declaring, Kind, Resolved, ThingType};
use tsa_tree::meaning::{Entry, Meaning, Tag};
use tsa_tree::number::Number;
use tsa_tree::premise::{Failure, TypeCode};
use tsa_types_operators::single;
use tsa_types_row::Row;

/// A length that was judged: how many elements there are, 1 where that is refused, and what is wrong with it.
#[derive(Clone, Copy)]
pub struct Length {
    pub elements: Option<u32>,
    pub failure: Option<Failure>,
}

/// A written type that was judged: the type of what is declared, what it is but for its length, and what is wrong with that.
#[derive(Clone, Copy)]
pub struct Written {
    pub thing: ThingType,
    pub resolved: Resolved,
    pub length: Option<Failure>,
}

/// The type of a struct by its tag.
fn of_struct(span: Span, tag: Option<Tag>) -> Resolved
    ensures { result ≡ spec_of_struct span tag }
{
    match tag {
        None => Resolved::Unknown(span),
        Some(Tag::Structure(number)) => Resolved::Type(single(Kind::Structure(number), false)),
        Some(Tag::Enumeration(_)) => Resolved::Refused,
    }
}

/// The type of an enum by its tag: `int`.
fn of_enum(span: Span, tag: Option<Tag>) -> Resolved
    ensures { result ≡ spec_of_enum span tag }
{
    match tag {
        None => Resolved::Unknown(span),
        Some(Tag::Enumeration(_)) => Resolved::Type(single(Kind::Int, false)),
        Some(Tag::Structure(_)) => Resolved::Refused,
    }
}

/// The type that a name of a type means.
fn of_alias(span: Span, entry: Option<Entry>) -> Resolved
    ensures { result ≡ spec_of_alias span entry }
{
    match entry {
        Some(
            Entry {
                meaning: Meaning::TypeName,
                thing,
            },
        ) => Resolved::Type(thing),
        _ => Resolved::Unknown(span),
    }
}

/// `const` beside a base.
fn qualified(is_const: bool, base: Resolved) -> Resolved
    ensures { result ≡ spec_qualified is_const base }
{
    match base {
        Resolved::Type(thing) => Resolved::Type(ThingType {
            kind: thing.kind,
            length: thing.length,
            is_const: thing.is_const || is_const,
        }),
        other => other,
    }
}

/// A pointer to a struct, where a star stands.
fn declared_as(pointer: bool, is_const: bool, base: Resolved) -> Resolved
    ensures { result ≡ spec_declared_as pointer is_const base }
{
    let Resolved::Type(thing) = base else {
        return base;
    };
    if !pointer {
        return base;
    }
    match thing.kind {
        Kind::Structure(target) => {
            let to_const = thing.is_const;
            Resolved::Type(single(Kind::Pointer { target, to_const }, is_const))
        }
        _ => Resolved::Refused,
    }
}

/// A number of elements from 1 to 65,536.
fn as_length(value: u32) -> Option<u32>
    ensures { result ≡ spec_as_length value }
{
    if 1 <= value && value as usize <= PLACE_LIMIT {
        Some(value)
    } else {
        None
    }
}

/// The number of elements that a constant gives.
fn length_in(value: Option<Number>) -> Option<u32>
    ensures { result ≡ spec_length_in value }
{
    match value? {
        Number::Int(z) => { if z < 0 { None } else { as_length(z as u32) } }
        Number::Unsigned(n) => as_length(n),
    }
}

/// What a length comes to at a span.
fn told_of(span: Span, found: Result<Found, Failure>) -> Length
    ensures { result ≡ spec_told_of span found }
{
    match found {
        Ok(found) => match length_in(found.value()) {
            Some(elements) => Length {
                elements: Some(elements),
                failure: None,
            },
            None => Length {
                elements: Some(1),
                failure: Some(at(TypeCode::TY9, span)),
            },
        },
        Err(failure) => Length {
            elements: Some(1),
            failure: Some(failure),
        },
    }
}

/// The type of a thing; one that is none counts as `int`.
fn thing_of(resolved: Resolved, length: Option<u32>) -> ThingType
    ensures { result ≡ with_length length resolved }
{
    match resolved {
        Resolved::Type(thing) => ThingType {
            kind: thing.kind,
            length,
            is_const: thing.is_const,
        },
        _ => ThingType {
            kind: Kind::Int,
            length,
            is_const: false,
        },
    }
}

/// A kind that nothing has.
fn is_nothing(kind: Kind) -> bool
    ensures { result ≡ spec_is_nothing kind }
{
    match kind {
        Kind::Void => true,
        _ => false,
    }
}

/// A tag or a name of a type that isn't known.
#[tactic(auto, unfolding(tsa_tree::specs::types::Premises::first))]
pub fn tag_failure(written: Resolved) -> Option<Failure>
    ensures { result ≡ first (unknown_tag written) }
{
    match written {
        Resolved::Unknown(span) => Some(at(TypeCode::TY1, span)),
        _ => None,
    }
}

impl<'w, 'a> View<'w, 'a> {
    ghost use Rattle.std.specs.Prelude.{◌++◌, option_map, IfOk, OnOk};
    ghost use Rattle.tsa_tree.specs.declarations.Shapes.{base_shape, type_shape};
    ghost use Rattle.tsa_tree.specs.expressions.Shapes.{shape};
    ghost use Rattle.tsa_tree.specs.types.DeclaredTypes.{base_of as spec_base_of, resolve as spec_resolve, length_of, thing_type};
    ghost use Rattle.tsa_tree.specs.types.DeclaredTypes.{is_refused as spec_is_refused, may_be as spec_may_be, length_premises};
    ghost use Rattle.tsa_tree.specs.types.Scopes.{context_of};
    ghost use Rattle.tsa_types_row.specs.BodyRows.{aside_given};

    /// What stands before a declarator; an enum is an `int`.
    fn base_of(self, base: &BaseType<'_>) -> Resolved
        ensures { result ≡ spec_base_of self.entry.scope.now (base_shape base.now) }
    {
        match base {
            BaseType::Int => Resolved::Type(single(Kind::Int, false)),
            BaseType::Unsigned => Resolved::Type(single(Kind::Unsigned, false)),
            BaseType::Void => Resolved::Type(single(Kind::Void, false)),
            BaseType::Structure(tag) => of_struct(tag.span, self.scope.tag(Some(*tag))),
            BaseType::Enumerated(tag) => of_enum(tag.span, self.scope.tag(Some(*tag))),
            BaseType::Alias(name) => of_alias(name.span, self.scope.declared(name.text)),
        }
    }

    /// A written type but for its length.
    pub fn resolve(self, written: &CType<'_>) -> Resolved
        ensures { result ≡ spec_resolve self.entry.scope.now (type_shape written.now) }
    {
        let base = qualified(written.base_const, self.base_of(&written.base));
        declared_as(written.pointer, written.pointer_const, base)
    }

    /// What may be declared: a name of a type may mean what no thing is.
    fn may_be(self, what: Declaring, kind: Kind) -> bool
        ensures { result ≡ spec_may_be self.entry.scope.now what kind }
    {
        match what {
            Declaring::Thing => !is_nothing(kind) && self.scope.is_whole(kind),
            Declaring::Result => self.scope.is_whole(kind),
            Declaring::Type => true,
        }
    }

    /// Whether a written type is none that may be declared.
    pub fn is_refused(self, what: Declaring, written: Resolved) -> bool
        ensures { result ≡ spec_is_refused self.entry.scope.now what written }
    {
        match written {
            Resolved::Type(thing) => !self.may_be(what, thing.kind),
            Resolved::Unknown(_) => false,
            Resolved::Refused => true,
        }
    }

    /// A length, which is put into the row.
    #[tactic(auto, using(crate::proofs::LengthLaws::lengths, crate::proofs::RowLaws::notes))]
    pub fn length(self, row: &mut Row, length: Option<&Expr<'_>>) -> Result<Length, NoMemory>
        ensures elements { IfOk result (λ told. told.elements
            ≡ length_of (context_of self.entry.scope.now) (option_map (λ x. shape x.now) length.entry)) }
        ensures failure { IfOk result (λ told. told.failure
            ≡ first (length_premises (context_of self.entry.scope.now) (option_map (λ x. shape x.now) length.entry))) }
        ensures nodes { OnOk result (row.new ≡ row.old ++ aside_given self.entry.scope.now self.entry.function
            (option_map (λ x. shape x.now) length.entry)) }
    {
        match length {
            Some(expr) => {
                let found = self.aside(row, expr)?;
                Ok(told_of(expr.span, found))
            }
            None => Ok(Length {
                elements: None,
                failure: None,
            }),
        }
    }

    /// A written type with its length, which is put into the row.
    pub fn written(self, row: &mut Row, written: &CType<'_>) -> Result<Written, NoMemory>
        ensures thing { IfOk result (λ told. told.thing ≡ thing_type self.entry.scope.now (type_shape written.now)) }
        ensures resolved { IfOk result (λ told. told.resolved ≡ spec_resolve self.entry.scope.now (type_shape written.now)) }
        ensures length { IfOk result (λ told. told.length
            ≡ first (length_premises (context_of self.entry.scope.now) (option_map (λ x. shape x.now) written.now.length))) }
        ensures nodes { OnOk result (row.new ≡ row.old ++ aside_given self.entry.scope.now self.entry.function
            (option_map (λ x. shape x.now) written.now.length)) }
    {
        let length = self.length(row, written.length)?;
        let resolved = self.resolve(written);
        Ok(Written {
            thing: thing_of(resolved, length.elements),
            resolved,
            length: length.failure,
        })
    }
}

/// What is wrong with a name that is taken or not, and with its type but for a length.
#[tactic(auto, unfolding(crate::specs::Lengths::name_premises, tsa_tree::specs::types::Premises::first))]
pub fn typed_failure(taken: bool, refused: bool, span: Span, resolved: Resolved) -> Option<Failure>
    ensures { result ≡ first (name_premises taken refused span resolved) }
{
    if taken {
        return Some(at(TypeCode::TY2, span));
    }
    if refused {
        return Some(at(TypeCode::TY3, span));
    }
    tag_failure(resolved)
}
