//! The head of a function is read: its storage, its result, its name, its parameters and its attributes (C11 6.7.6.3, 6.9.1).
ghost use Rattle.std.specs.Prelude.{◌≡◌, ◌≢◌, ◌+◌, ◌≤◌, ◌<◌, ◌&&◌, length, option_map, [], None, Ok, IfOk};
ghost use Rattle.tsa_tree.specs.declarations.Syntax.{head_of};
ghost use Rattle.tsa_tree.specs.declarations.Shapes.{param_shape, param_shapes, head_shape};
ghost use Rattle.tsa_tree.specs.Reads.{read};
ghost use Rattle.tsa_tree.specs.Rows.{some_parameters, a_signature, a_head, parameter_list as list_call, parameters as parameters_call};
ghost use Rattle.tsa_tree.specs.Rows.{signature as signature_call, head as head_call};
ghost use Rattle.tsa_tree.specs.expressions.Shapes.{name_shape};
ghost use Rattle.tsa_tree.specs.tokens.Signs.{sign_at, is_storage as spec_storage, is_void, is_close};
ghost use Rattle.tsa_expr.specs.Source.{input, named};
ghost use Rattle.tsa_expr.specs.Gives.{Gives};
ghost use Rattle.tsa_decl_declarators.specs.Outcomes.{after};
ghost use Rattle.tsa_decl.specs.Outcomes.{parameter_with, storage_at, parameter_at as spec_parameter, head_end_at};
ghost use Rattle.tsa_decl_declarators.specs.Readings.{row_type, row_declarator};
ghost use Rattle.tsa_decl.specs.Readings.{seen_parameter, seen_signature, row_signature};

use bumpalo::Bump;
use tsa_attr::read_groups;
use tsa_base::Span;
use tsa_decl_declarators::{
    Declarator, Specified, Star, ctype, declarator_at, keep, listed, open, specifier, star_at,
};
use tsa_expr::{Reader, SyntaxCode, SyntaxRefusal, refuse};
use tsa_tree::attr::Attr;
use tsa_tree::decl::CType;
use tsa_tree::expr::Name;
use tsa_tree::item::{FnTree, Param};
use tsa_tree::sign::{Keyword, Sign};

/// A parameter, and the token after it.
#[derive(Clone, Copy)]
pub struct Parameter<'a> {
    pub param: Param<'a>,
    pub next: u32,
}

/// The parameters and the attributes of a function, and the token after them.
#[derive(Clone, Copy)]
pub struct Signature<'a> {
    pub params: &'a [Param<'a>],
    pub attrs: &'a [Attr<'a>],
    pub next: u32,
}

/// Whether a sign is a storage word, which leaves no node.
pub fn is_storage(sign: Sign) -> bool
    ensures { result ≡ spec_storage sign }
{
    match sign {
        Sign::Keyword(Keyword::Static | Keyword::Extern | Keyword::Inline) => true,
        _ => false,
    }
}

/// Behind any number of storage words.
#[tactic(auto, using(crate::proofs::HeadLaws::words))]
pub fn behind_storage(reader: Reader<'_, '_>, at: u32) -> u32
    ensures is { storage_at (input reader.entry) (named reader.entry) at ≡ Ok (tt, result) }
    ensures ends { at ≤ result }
{
    let mut next = at;
    'words: while is_storage(reader.sign(next)) {
        next += 1;
    }
    next
}

/// A parameter: a type, a star or none, and a name or none.
#[tactic(auto, using(crate::proofs::ParameterLaws::alone))]
fn parameter_at<'a>(reader: Reader<'a, '_>, at: u32) -> Result<Parameter<'a>, SyntaxRefusal>
    ensures gives { Gives seen_parameter result (spec_parameter (input reader.entry) (named reader.entry) at) }
    ensures ends { IfOk result (λ r. (at < r.next) × (r.next ≤ length reader.entry.tokens.now)) }
{
    let specified = specifier(reader, at)?;
    let star = star_at(reader, specified.next);
    let Sign::Name = star.sign else {
        let from = if star.pointer { specified.next } else { at };
        let span = reader.over(from, star.next);
        return Ok(Parameter {
            param: parameter_of(specified, star, None, span),
            next: star.next,
        });
    };
    let name = reader.name(star.next)?;
    let next = star.next + 1;
    let span = reader.over(specified.next, next);
    Ok(Parameter {
        param: parameter_of(specified, star, Some(name), span),
        next,
    })
}

/// A parameter of a type, with a star or none and a name or none.
fn parameter_of<'a>(
    specified: Specified<'a>,
    star: Star,
    name: Option<Name<'a>>,
    span: Span,
) -> Param<'a>
    ensures is { param_shape result ≡ parameter_with (row_type specified.entry) star.pointer star.constant
        (option_map name_shape name.entry) span }
{
    Param {
        name,
        ctype: CType {
            base: specified.base,
            base_const: specified.is_const,
            pointer: star.pointer,
            pointer_const: star.constant,
            length: None,
        },
        span,
    }
}

/// Parameters separated by commas, one or more, at the end of a list, and the parenthesis that closes them.
#[tactic(auto, using(crate::proofs::ParameterLaws::lists))]
fn parameter_list<'a>(
    reader: Reader<'a, '_>,
    at: u32,
    list: &mut Vec<Param<'a>, &'a Bump>,
) -> Result<u32, SyntaxRefusal>
    ensures gives { Gives (λ next. (param_shapes list.new.items, next)) result
        (after (param_shapes list.old.items) (read (input reader.entry) some_parameters (list_call (named reader.entry)) at)) }
    ensures ends { IfOk result (λ next. (at < next) × (next ≤ length reader.entry.tokens.now)) }
{
    let mut next = at;
    'parameters: loop {
        let inner = parameter_at(reader, next)?;
        keep(list, inner.param)?;
        match reader.sign(inner.next) {
            Sign::Comma => next = inner.next + 1,
            Sign::Close => return Ok(inner.next + 1),
            _ => return Err(refuse(SyntaxCode::SY1, inner.next)),
        }
    }
}

/// Whether a sign that stands at a place is that of `void` alone before a closing parenthesis.
pub fn is_lone_void(reader: Reader<'_, '_>, at: u32, sign: Sign) -> bool
    requires within { sign ≢ Sign.End → at < length reader.tokens.now }
    ensures { result ≡ (is_void sign && is_close (sign_at (input reader.entry) (named reader.entry) (at + 1))) }
{
    match sign {
        Sign::Keyword(Keyword::Void) => match reader.sign(at + 1) {
            Sign::Close => true,
            _ => false,
        },
        _ => false,
    }
}

/// Parameters, a lone `void` or nothing, and the parenthesis that closes them.
#[tactic(auto, using(crate::proofs::ParameterLaws::between))]
fn parameters<'a>(reader: Reader<'a, '_>, at: u32) -> Result<(&'a [Param<'a>], u32), SyntaxRefusal>
    ensures gives { Gives (λ found. (param_shapes found.0.now, found.1)) result
        (read (input reader.entry) some_parameters (parameters_call (named reader.entry)) at) }
    ensures ends { IfOk result (λ found. (at < found.1) × (found.1 ≤ length reader.entry.tokens.now)) }
{
    let sign = reader.sign(at);
    if let Sign::Close = sign {
        return Ok((&[], at + 1));
    }
    if is_lone_void(reader, at, sign) {
        return Ok((&[], at + 1 + 1));
    }
    parameters_in_arena(reader, at)
}

/// Parameters separated by commas, one or more, kept in the arena, and the parenthesis that closes them.
#[tactic(auto, using(crate::proofs::ParameterLaws::new_lists))]
fn parameters_in_arena<'a>(
    reader: Reader<'a, '_>,
    at: u32,
) -> Result<(&'a [Param<'a>], u32), SyntaxRefusal>
    ensures gives { Gives (λ found. (param_shapes found.0.now, found.1)) result
        (read (input reader.entry) some_parameters (list_call (named reader.entry)) at) }
    ensures ends { IfOk result (λ found. (at < found.1) × (found.1 ≤ length reader.entry.tokens.now)) }
{
    let mut list = Vec::new(reader.bump);
    let next = parameter_list(reader, at, &mut list)?;
    Ok((listed(list), next))
}

/// The parameters of a function in their parentheses, and its attributes.
#[tactic(auto, using(crate::proofs::HeadLaws::signatures))]
fn signature_at<'a>(reader: Reader<'a, '_>, at: u32) -> Result<Signature<'a>, SyntaxRefusal>
    ensures gives { Gives seen_signature result (read (input reader.entry) a_signature (signature_call (named reader.entry)) at) }
    ensures ends { IfOk result (λ r. (at < r.next) × (r.next ≤ length reader.entry.tokens.now)) }
{
    let inside = open(reader, at, 0)?;
    let (params, behind) = parameters(reader, inside)?;
    let (attrs, next) = read_groups(reader, behind, 0)?;
    Ok(Signature {
        params,
        attrs,
        next,
    })
}

/// A function without its body.
fn function<'a>(
    specified: Specified<'a>,
    declarator: Declarator<'a>,
    signature: Signature<'a>,
) -> FnTree<'a>
    ensures is { head_shape result ≡ head_of (row_type specified.entry) (row_declarator declarator.entry) (row_signature signature.entry) }
    ensures bodiless { result.body ≡ None }
    ensures pointless { result.points.now ≡ [] }
{
    FnTree {
        name: declarator.name,
        result: ctype(specified, declarator, None),
        params: signature.params,
        attrs: signature.attrs,
        body: None,
        points: &[],
    }
}

/// A function after its declarator, up to before its `;` or block.
#[tactic(auto, using(crate::proofs::HeadLaws::ends))]
pub fn head_behind<'a>(
    reader: Reader<'a, '_>,
    specified: Specified<'a>,
    declarator: Declarator<'a>,
) -> Result<(FnTree<'a>, u32), SyntaxRefusal>
    ensures gives { Gives (λ found. (head_shape found.0, found.1)) result
        (head_end_at (input reader.entry) (named reader.entry) (row_type specified.entry) (row_declarator declarator.entry)
        declarator.entry.next) }
    ensures bodiless { IfOk result (λ found. (found.0.body ≡ None) × (found.0.points.now ≡ [])) }
    ensures ends { IfOk result (λ found. (declarator.entry.next < found.1) × (found.1 ≤ length reader.entry.tokens.now)) }
{
    let signature = signature_at(reader, declarator.next)?;
    let next = signature.next;
    Ok((function(specified, declarator, signature), next))
}

/// A function up to before its `;` or block.
#[tactic(auto, using(crate::proofs::HeadLaws::heads))]
pub fn head<'a>(reader: Reader<'a, '_>, at: u32) -> Result<(FnTree<'a>, u32), SyntaxRefusal>
    ensures gives { Gives (λ found. (head_shape found.0, found.1)) result
        (read (input reader.entry) a_head (head_call (named reader.entry)) at) }
    ensures bodiless { IfOk result (λ found. (found.0.body ≡ None) × (found.0.points.now ≡ [])) }
    ensures ends { IfOk result (λ found. (at < found.1) × (found.1 ≤ length reader.entry.tokens.now)) }
{
    let start = behind_storage(reader, at);
    let specified = specifier(reader, start)?;
    let declarator = declarator_at(reader, specified.next)?;
    head_behind(reader, specified, declarator)
}
