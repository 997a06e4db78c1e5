//! What a declarator of a member or a global declares (C11 6.7, 6.7.2.1).
ghost use Rattle.std.specs.Prelude.{◌≡◌, ◌+◌, ◌≤◌, ◌<◌, length as count, option_map, Some, None, IfOk};
ghost use Rattle.tsa_base.specs.declared.limits.TheConstants.{NESTING_LIMIT};
ghost use Rattle.tsa_tree.specs.attributes.Syntax.{attr_shapes};
ghost use Rattle.tsa_tree.specs.declarations.Syntax.{declaration as declaration_of, made_of};
ghost use Rattle.tsa_tree.specs.declarations.Shapes.{init_shape, type_shape, decl_shape};
ghost use Rattle.tsa_tree.specs.Reads.{read};
ghost use Rattle.tsa_tree.specs.Rows.{a_declared, declared_rest as rest_call};
ghost use Rattle.tsa_tree.specs.expressions.Shapes.{shape};
ghost use Rattle.tsa_expr.specs.Source.{input, named};
ghost use Rattle.tsa_expr.specs.Gives.{Gives};
ghost use Rattle.tsa_decl_declarators.specs.Outcomes.{init_at, suffix_at as spec_suffix, delimiter_at};
ghost use Rattle.tsa_decl_declarators.specs.Readings.{seen_init, seen_suffix, seen_declared, row_role, role_depth, row_type};
ghost use Rattle.tsa_decl_declarators.specs.Readings.{row_declarator};

use crate::declarator::Declarator;
use crate::declarators::length_at;
use crate::initialisers::{InitialiserReading, initialiser};
use crate::types::Specified;
use tsa_attr::read_groups;
use tsa_base::Span;
use tsa_expr::{Reader, SyntaxCode, SyntaxRefusal, refuse};
use tsa_tree::attr::Attr;
use tsa_tree::decl::{CType, Decl, Init};
use tsa_tree::expr::Expr;
use tsa_tree::sign::Sign;

/// What a list of declarators declares. Members stand in their struct's braces, globals where no construct is open.
#[derive(Clone, Copy)]
pub enum Role {
    Member,
    Global,
}

/// What follows the name of a declarator: a length, attributes and an initialiser, each where it is written, and the token
/// after them.
#[derive(Clone, Copy)]
pub struct Suffix<'a> {
    pub length: Option<&'a Expr<'a>>,
    pub attrs: &'a [Attr<'a>],
    pub init: Option<Init<'a>>,
    pub next: u32,
}

/// An initialiser where one is written, and the token after it.
#[derive(Clone, Copy)]
pub struct Initialisation<'a> {
    pub init: Option<Init<'a>>,
    pub next: u32,
}

/// A declaration, whether a comma and another declarator follow, and the token after the comma or the `;`.
#[derive(Clone, Copy)]
pub struct Declared<'a> {
    pub decl: Decl<'a>,
    pub goes_on: bool,
    pub next: u32,
}

/// How many constructs are open where it is declared.
pub fn depth_of(role: Role) -> u32
    ensures is { result ≡ role_depth role }
    ensures shallow { result < NESTING_LIMIT }
{
    match role {
        Role::Member => 1,
        Role::Global => 0,
    }
}

/// A type, a declarator and what follows its name as a declaration.
pub fn declaration<'a>(
    specified: Specified<'a>,
    declarator: Declarator<'a>,
    suffix: Suffix<'a>,
    span: Span,
) -> Decl<'a>
    ensures { decl_shape result ≡ declaration_of (row_type specified.entry) (row_declarator declarator.entry)
        (option_map (λ x. shape x.now) suffix.entry.length) (attr_shapes suffix.entry.attrs.now) (option_map init_shape suffix.entry.init)
        span }
{
    Decl {
        name: declarator.name,
        ctype: ctype(specified, declarator, suffix.length),
        attrs: suffix.attrs,
        init: suffix.init,
        span,
    }
}

/// A type with a declarator's star and a length.
pub fn ctype<'a>(
    specified: Specified<'a>,
    declarator: Declarator<'a>,
    length: Option<&'a Expr<'a>>,
) -> CType<'a>
    ensures { type_shape result ≡ made_of (row_type specified.entry) declarator.entry.pointer declarator.entry.pointer_const
        (option_map (λ x. shape x.now) length.entry) }
{
    CType {
        base: specified.base,
        base_const: specified.is_const,
        pointer: declarator.pointer,
        pointer_const: declarator.pointer_const,
        length,
    }
}

/// What may initialise a declarator.
#[tactic(auto, using(crate::proofs::DeclaredLaws::initialising))]
fn init<'a>(
    reader: Reader<'a, '_>,
    at: u32,
    role: Role,
) -> Result<Initialisation<'a>, SyntaxRefusal>
    ensures gives { Gives seen_init result (init_at (input reader.entry) (named reader.entry) (row_role role) (role_depth role) at) }
    ensures ends { IfOk result (λ r. at ≤ r.next) }
    ensures within { IfOk result (λ r. at ≤ count reader.entry.tokens.now → r.next ≤ count reader.entry.tokens.now) }
{
    match role {
        Role::Global => match reader.sign(at) {
            Sign::Equals => initialiser(reader, at + 1, depth_of(role)).map(some_initialiser),
            _ => Ok(no_initialiser(at)),
        },
        Role::Member => Ok(no_initialiser(at)),
    }
}

/// An initialiser that was read.
pub fn some_initialiser<'a>(reading: InitialiserReading<'a>) -> Initialisation<'a>
    ensures some { result.init ≡ Some reading.entry.init }
    ensures next_is { result.next ≡ reading.entry.next }
{
    Initialisation {
        init: Some(reading.init),
        next: reading.next,
    }
}

/// No initialiser before a token.
pub fn no_initialiser<'a>(next: u32) -> Initialisation<'a>
    ensures none { result.init ≡ None }
    ensures next_is { result.next ≡ next }
{
    Initialisation { init: None, next }
}

/// The comma or the `;` after a declaration: whether it is the comma.
#[tactic(auto, using(crate::proofs::DelimiterLaws::delimiters))]
fn delimiter(reader: Reader<'_, '_>, at: u32) -> Result<bool, SyntaxRefusal>
    ensures gives { Gives (λ goes_on. (goes_on, at + 1)) result (delimiter_at (input reader.entry) (named reader.entry) at) }
    ensures inside { IfOk result (λ goes_on. at < count reader.entry.tokens.now) }
{
    match reader.sign(at) {
        Sign::Comma => Ok(true),
        Sign::Semicolon => Ok(false),
        _ => Err(refuse(SyntaxCode::SY1, at)),
    }
}

/// What follows the name of a member's or a global's declarator, up to before its comma or `;`.
#[tactic(auto, using(crate::proofs::DeclaredLaws::suffixes))]
fn suffix_at<'a>(reader: Reader<'a, '_>, at: u32, role: Role) -> Result<Suffix<'a>, SyntaxRefusal>
    requires within { at ≤ count reader.tokens.now }
    ensures gives { Gives seen_suffix result (spec_suffix (input reader.entry) (named reader.entry) (row_role role) (role_depth role) at) }
    ensures ends { IfOk result (λ r. at ≤ r.next) }
{
    let depth = depth_of(role);
    let length = length_at(reader, at, depth)?;
    let (attrs, behind) = read_groups(reader, length.next, depth)?;
    let init = init(reader, behind, role)?;
    Ok(Suffix {
        length: length.length,
        attrs,
        init: init.init,
        next: init.next,
    })
}

/// What follows the name of a member's or a global's declarator, and its comma or `;`.
#[tactic(auto, using(crate::proofs::DeclaredLaws::rests))]
pub fn declared_rest<'a>(
    reader: Reader<'a, '_>,
    role: Role,
    specified: Specified<'a>,
    declarator: Declarator<'a>,
) -> Result<Declared<'a>, SyntaxRefusal>
    requires within { declarator.next ≤ count reader.tokens.now }
    ensures gives { Gives seen_declared result
        (read (input reader.entry) a_declared
        (rest_call (named reader.entry) (row_role role) (role_depth role) (row_type specified.entry) (row_declarator declarator.entry))
        declarator.entry.next) }
    ensures ends { IfOk result (λ r. (declarator.entry.next < r.next) × (r.next ≤ count reader.entry.tokens.now)) }
{
    let suffix = suffix_at(reader, declarator.next, role)?;
    let goes_on = delimiter(reader, suffix.next)?;
    let span = reader.over(declarator.start, suffix.next);
    Ok(Declared {
        decl: declaration(specified, declarator, suffix, span),
        goes_on,
        next: suffix.next + 1,
    })
}
