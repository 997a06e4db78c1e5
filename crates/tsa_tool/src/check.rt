//! The unit of an input, or the first refusal.
ghost use Rattle.std.specs.Prelude.{◌≡◌, ◌≢◌, ◌≤◌, length, IfOk, IsErrOf, Ok, Err};
ghost use Rattle.tsa_base.specs.declared.limits.TheConstants.{INPUT_LIMIT};
ghost use Rattle.tsa_base.specs.Tokens.{tokens_of};
ghost use Rattle.tsa_tree.specs.tokens.Signs.{lexemes};
ghost use Rattle.tsa_tree.specs.tokens.Texts.{AreOfText};
ghost use Rattle.tsa_tree.specs.units.Shapes.{HaveTheirPoints, item_shapes};
ghost use Rattle.tsa_unit.specs.Parsing.{unit_of};
ghost use Rattle.tsa_place_model.specs.Units.{placed_in};
ghost use Rattle.tsa_profile_context.specs.Units.{refusal_of_profile};
ghost use Rattle.tsa_tool.specs.Checks.{lexed, byte_of, refusal_of, placed, tree_in, typed_in, or_too_many, or_misfit, fit_in};
ghost use Rattle.tsa_tool.specs.Reports.{IsPrintOf, OfUnit};
ghost use Rattle.tsa_tool.specs.declared.answer.Status.TheVariants.{Printed};
ghost use Rattle.tsa_tool.specs.declared.check.ToolRefusal.TheVariants.{NoMemory};

use bumpalo::Bump;
use std::alloc::Global;
use tsa_base::{LexCode, NoMemory, Token};
use tsa_expr::{SyntaxCode, SyntaxRefusal};
use tsa_lex::{LexRefusal, lex};
use tsa_place::{PlaceRefusal, Places};
use tsa_print::print_unit;
use tsa_profile::{Fit, fit};
use tsa_profile_accesses::ProfileCode;
use tsa_profile_context::ProfileRefusal;
use tsa_tool_held::Ready;
use tsa_tree::Parsed;
use tsa_tree::premise::TypeCode;
use tsa_types::{Typed, type_check};
use tsa_types_expressions::TypeRefusal;
use tsa_unit::parse;

/// Why a unit is refused, with a line of its own: a byte that makes it no tokens, a token or a function that its syntax refuses, a node
/// that its types refuse, a declarator at which there are too many places, or a node or a function that the profile refuses.
#[derive(Clone, Copy)]
pub enum Refusal {
    Lex { code: LexCode, byte: u32 },
    Syntax { code: SyntaxCode, byte: u32 },
    Types { code: TypeCode, byte: u32 },
    Places { byte: u32 },
    Profile { code: ProfileCode, byte: u32 },
}

/// A refusal, or want of memory.
#[derive(Clone, Copy)]
pub enum ToolRefusal {
    Refused(Refusal),
    NoMemory,
}

impl From<NoMemory> for ToolRefusal {
    ghost from_gives = { λ _ refusal. refusal ≡ NoMemory };

    fn from(_: NoMemory) -> Self {
        ToolRefusal::NoMemory
    }
}

// The tokens of an input.
#[tactic(auto, using(tsa_tree::proofs::tokens::Texts::of_text))]
fn tokens_in<'s>(alloc: Global, bytes: &'s [u8]) -> Result<Vec<Token<'s>>, ToolRefusal>
    requires { length bytes.now ≤ INPUT_LIMIT }
    ensures tokens { IfOk result (λ tokens. lexed (tokens_of bytes.now) ≡ Ok (lexemes tokens.items)) }
    ensures text { IfOk result (λ tokens. AreOfText (lexemes tokens.items)) }
    ensures refused { (r : _) → IsErrOf result (ToolRefusal.Refused r) → lexed (tokens_of bytes.now) ≡ Err r }
{
    match lex(alloc, bytes) {
        Ok(tokens) => Ok(tokens),
        Err(LexRefusal::At { code, byte }) => {
            Err(ToolRefusal::Refused(Refusal::Lex { code, byte }))
        }
        Err(LexRefusal::NoMemory) => Err(ToolRefusal::NoMemory),
    }
}

// The byte with which a token begins. Behind the last token it is the end of the input.
fn byte_of(bytes: &[u8], tokens: &[Token<'_>], number: u32) -> u32
    requires { length bytes.now ≤ INPUT_LIMIT }
    ensures { result ≡ byte_of bytes.now (lexemes tokens.now) number }
{
    match tokens.get(number as usize) {
        Some(token) => token.span.from,
        None => bytes.len() as u32,
    }
}

// A refusal of the syntax, with its place.
fn placed(bytes: &[u8], tokens: &[Token<'_>], refusal: SyntaxRefusal) -> ToolRefusal
    requires { length bytes.now ≤ INPUT_LIMIT }
    ensures placed { (r : _) → result ≡ ToolRefusal.Refused r → refusal_of bytes.now (lexemes tokens.now) refusal ≡ r }
    ensures told { (r : _) → result ≡ ToolRefusal.Refused r → refusal ≢ SyntaxRefusal.NoMemory }
{
    match refusal {
        SyntaxRefusal::At { code, token } => ToolRefusal::Refused(Refusal::Syntax {
            code,
            byte: byte_of(bytes, tokens, token),
        }),
        SyntaxRefusal::Function { code, span } => ToolRefusal::Refused(Refusal::Syntax {
            code,
            byte: span.from,
        }),
        SyntaxRefusal::NoMemory => ToolRefusal::NoMemory,
    }
}

// The unit that tokens spell, in the arena.
fn tree_of<'a>(
    alloc: Global,
    bump: &'a Bump,
    bytes: &[u8],
    tokens: &[Token<'_>],
) -> Result<Parsed<'a>, ToolRefusal>
    requires bound { length bytes.now ≤ INPUT_LIMIT }
    requires text { AreOfText (lexemes tokens.now) }
    ensures tree { IfOk result (λ parsed. placed bytes.now (lexemes tokens.now) (unit_of (lexemes tokens.now))
        ≡ Ok (item_shapes parsed.unit.now.items.now)) }
    ensures points { IfOk result (λ parsed. HaveTheirPoints parsed.unit.now.items.now) }
    ensures refused { (r : _) → IsErrOf result (ToolRefusal.Refused r)
        → placed bytes.now (lexemes tokens.now) (unit_of (lexemes tokens.now)) ≡ Err r }
{
    match parse(alloc, bump, tokens) {
        Ok(parsed) => Ok(parsed),
        Err(refusal) => Err(placed(bytes, tokens, refusal)),
    }
}

// The unit of an input, in an arena.
#[tactic(auto, unfolding(crate::specs::Checks::tree_in))]
fn read_tree<'a>(alloc: Global, bump: &'a Bump, bytes: &[u8]) -> Result<Parsed<'a>, ToolRefusal>
    requires { length bytes.now ≤ INPUT_LIMIT }
    ensures tree { IfOk result (λ parsed. tree_in bytes.now ≡ Ok (item_shapes parsed.unit.now.items.now)) }
    ensures points { IfOk result (λ parsed. HaveTheirPoints parsed.unit.now.items.now) }
    ensures refused { (r : _) → IsErrOf result (ToolRefusal.Refused r) → tree_in bytes.now ≡ Err r }
{
    let tokens = tokens_in(alloc, bytes)?;
    tree_of(alloc, bump, bytes, &tokens)
}

/// The canonical text of the unit of an input of at most `INPUT_LIMIT` bytes, or the first refusal of its tokens, its
/// syntax and the limits of syntax.
pub fn canonical_text(alloc: Global, bytes: &[u8]) -> Result<Vec<u8>, ToolRefusal>
    requires { length bytes.now ≤ INPUT_LIMIT }
    ensures text { IfOk result (λ text. OfUnit bytes.now IsPrintOf (tree_in bytes.now) (record { status = Printed; text = text.items })) }
    ensures refused { (r : _) → IsErrOf result (ToolRefusal.Refused r) → tree_in bytes.now ≡ Err r }
{
    let bump = Bump::new(alloc);
    let parsed = read_tree(alloc, &bump, bytes)?;
    Ok(print_unit(alloc, parsed.unit())?)
}

// The unit of an input whose types are right, in an arena.
#[tactic(auto, unfolding(crate::specs::Checks::typed_in), using(crate::proofs::TypedLaws::types))]
fn read_typed<'a>(alloc: Global, bump: &'a Bump, bytes: &[u8]) -> Result<Typed<'a>, ToolRefusal>
    requires { length bytes.now ≤ INPUT_LIMIT }
    ensures tree { IfOk result (λ typed. typed_in bytes.now ≡ Ok (item_shapes typed.unit.now.items.now)) }
    ensures points { IfOk result (λ typed. HaveTheirPoints typed.unit.now.items.now) }
    ensures refused { (r : _) → IsErrOf result (ToolRefusal.Refused r) → typed_in bytes.now ≡ Err r }
{
    let parsed = read_tree(alloc, bump, bytes)?;
    match type_check(alloc, parsed) {
        Ok(typed) => Ok(typed),
        Err(TypeRefusal::At { code, span }) => Err(ToolRefusal::Refused(Refusal::Types {
            code,
            byte: span.from,
        })),
        Err(TypeRefusal::NoMemory) => Err(ToolRefusal::NoMemory),
    }
}

// A typed unit with its places, or the declarator at which there are too many.
#[tactic(auto, using(crate::proofs::TypedLaws::places))]
fn places_of(alloc: Global, typed: &Typed<'_>) -> Result<Places, ToolRefusal>
    ensures places { IfOk result (λ places. placed_in (item_shapes typed.now.unit.now.items.now) ≡ Ok places) }
    ensures sized { IfOk result (λ places. or_too_many (item_shapes typed.now.unit.now.items.now)
        (placed_in (item_shapes typed.now.unit.now.items.now)) ≡ Ok (item_shapes typed.now.unit.now.items.now)) }
    ensures refused { (r : _) → IsErrOf result (ToolRefusal.Refused r)
        → or_too_many (item_shapes typed.now.unit.now.items.now) (placed_in (item_shapes typed.now.unit.now.items.now)) ≡ Err r }
{
    match Places::new(alloc, typed.unit()) {
        Ok(places) => Ok(places),
        Err(PlaceRefusal::TooMany { span }) => Err(ToolRefusal::Refused(Refusal::Places {
            byte: span.from,
        })),
        Err(PlaceRefusal::NoMemory) => Err(ToolRefusal::NoMemory),
    }
}

// A typed unit that is in the profile, or the first node or function that the profile refuses.
#[tactic(auto, using(crate::proofs::TypedLaws::profile))]
fn fit_of<'a>(alloc: Global, typed: Typed<'a>, places: &Places) -> Result<Fit<'a>, ToolRefusal>
    requires placed { placed_in (item_shapes typed.unit.now.items.now) ≡ Ok places.now }
    ensures tree { IfOk result (λ fit. fit.typed ≡ typed.entry) }
    ensures fits { IfOk result (λ fit. or_misfit (item_shapes typed.entry.unit.now.items.now)
        (refusal_of_profile (item_shapes typed.entry.unit.now.items.now)) ≡ Ok (item_shapes typed.entry.unit.now.items.now)) }
    ensures refused { (r : _) → IsErrOf result (ToolRefusal.Refused r)
        → or_misfit (item_shapes typed.entry.unit.now.items.now) (refusal_of_profile (item_shapes typed.entry.unit.now.items.now)) ≡ Err r }
{
    match fit(alloc, typed, places) {
        Ok(fit) => Ok(fit),
        Err(ProfileRefusal::At { code, span } | ProfileRefusal::Function { code, span }) => {
            Err(ToolRefusal::Refused(Refusal::Profile {
                code,
                byte: span.from,
            }))
        }
        Err(ProfileRefusal::NoMemory) => Err(ToolRefusal::NoMemory),
    }
}

/// The unit of an input of at most `INPUT_LIMIT` bytes that has no more places than it may and is in the profile, in an arena, or the first
/// refusal in the order of the stages.
#[tactic(auto, unfolding(crate::specs::Checks::sized_in, crate::specs::Checks::fit_in))]
pub fn read_ready<'a>(alloc: Global, bump: &'a Bump, bytes: &[u8]) -> Result<Ready<'a>, ToolRefusal>
    requires { length bytes.now ≤ INPUT_LIMIT }
    ensures tree { IfOk result (λ ready. fit_in bytes.now ≡ Ok (item_shapes ready.fit.typed.unit.now.items.now)) }
    ensures points { IfOk result (λ ready. HaveTheirPoints ready.fit.typed.unit.now.items.now) }
    ensures refused { (r : _) → IsErrOf result (ToolRefusal.Refused r) → fit_in bytes.now ≡ Err r }
{
    let typed = read_typed(alloc, bump, bytes)?;
    let places = places_of(alloc, &typed)?;
    let fit = fit_of(alloc, typed, &places)?;
    Ok(Ready { fit, places })
}
