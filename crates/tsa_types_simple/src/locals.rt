//! Locals of a body (C11 6.8.2): each is judged where what stands before it is known, and known behind its initialiser.
ghost use Rattle.std.specs.Prelude.{◌≡◌, ◌++◌, IfOk, OnOk, option_map};
ghost use Rattle.tsa_tree.specs.declarations.Shapes.{decl_shape, init_shape, init_shapes};
ghost use Rattle.tsa_tree.specs.types.Locals.{has_type as spec_has_type, can_not_go, init_breaks, names_in};
ghost use Rattle.tsa_tree.specs.types.Locals.{names_in_init as premises_in_init, names_in_items as premises_in_items, local_premises};
ghost use Rattle.tsa_tree.specs.types.Locals.{behind_local};
ghost use Rattle.tsa_tree.specs.types.Premises.{first};
ghost use Rattle.tsa_tree.specs.types.DeclaredTypes.{thing_type};
ghost use Rattle.tsa_tree.specs.types.Scopes.{Scope, context_of, is_taken};
ghost use Rattle.tsa_types_row.specs.BodyRows.{aside_init, aside_items, row_in_init, row_in_given_init, row_in_local};
ghost use Rattle.tsa_types_row.specs.BodyRows.{is_value as spec_is_value, local_node as spec_local_node};
ghost use Rattle.tsa_types_simple.specs.Locals.{local_by, value_breaks};

use tsa_base::{NoMemory, Span};
use tsa_tree::decl::{Decl, Init};
use tsa_tree::kind::{Declaring, Resolved, ThingType};
use tsa_tree::meaning::{Entry, Meaning, Symbol};
use tsa_tree::premise::{Bearer, Failure, TypeCode};
use tsa_types_expressions::{
    Found, Mark, View, Written, at, bare_node, first_of, typed_failure, typed_node,
};
use tsa_types_operators::{goes_to, place};
use tsa_types_row::{Node, Op, Row};
use tsa_types_scope::Scope;

/// What the initialiser of a local comes to: whether it can't go to it, and the first premise that fails in it.
#[derive(Clone, Copy)]
pub struct Initial {
    pub breaks: bool,
    pub failure: Option<Failure>,
}

/// What a local comes to by its parts: whether its name is taken, whether its type is none, and what is wrong with the rest.
#[derive(Clone, Copy)]
pub struct LocalParts {
    pub taken: bool,
    pub refused: bool,
    pub written: Written,
    pub attributes: Option<Failure>,
    pub init: Initial,
}

/// What was judged of a local: whether its name was taken, and what is wrong with it.
#[derive(Clone, Copy)]
pub struct Told {
    pub taken: bool,
    pub failure: Option<Failure>,
}

/// Whether a written type is one.
fn has_type(written: Resolved) -> bool
    ensures { result ≡ spec_has_type written }
{
    match written {
        Resolved::Type(_) => true,
        _ => false,
    }
}

/// Whether a value can't go to a thing of a type.
fn cannot_go(thing: ThingType, found: Result<Found, Failure>) -> bool
    ensures { result ≡ value_breaks thing found }
{
    match found {
        Ok(found) => !goes_to(found.thing, thing),
        Err(_) => false,
    }
}

/// What is wrong with a local at a span by its parts.
fn local_failure(span: Span, parts: LocalParts) -> Option<Failure>
    ensures { result ≡ local_by span parts }
{
    let resolved = parts.written.resolved;
    let breaks = has_type(resolved) && parts.init.breaks;
    if let Some(failure) = typed_failure(parts.taken, parts.refused || breaks, span, resolved) {
        return Some(failure);
    }
    let rest = first_of(parts.attributes, parts.init.failure);
    first_of(parts.written.length, rest)
}

/// The expressions of an initialiser that goes to no local, or of the items of one.
#[cycle(naming)]
#[tactic(auto, unfolding(tsa_types_row::specs::BodyRows::aside_init), using(crate::proofs::LocalLaws::names))]
fn names_failure(
    view: View<'_, '_>,
    row: &mut Row,
    init: &Init<'_>,
) -> Result<Option<Failure>, NoMemory>
    ensures judged { IfOk result (λ failure. failure ≡ first (premises_in_init view.entry.scope.now (init_shape init.now))) }
    ensures nodes { OnOk result (row.new ≡ row.old ++ aside_init view.entry.scope.now view.entry.function
        (init_shape init.now)) }
{
    match init {
        Init::Value(expr) => {
            let found = view.aside(row, expr)?;
            Ok(found.err())
        }
        Init::List { items, .. } => items_failure(view, row, items),
    }
}

/// The expressions of the items of a list.
#[cycle(naming)]
fn items_failure(
    view: View<'_, '_>,
    row: &mut Row,
    items: &[Init<'_>],
) -> Result<Option<Failure>, NoMemory>
    ensures judged { IfOk result (λ failure. failure ≡ first (premises_in_items view.entry.scope.now (init_shapes items.now))) }
    ensures nodes { OnOk result (row.new ≡ row.old ++ aside_items view.entry.scope.now view.entry.function
        (init_shapes items.now)) }
{
    let mut failure = None;
    'each: for item in items {
        failure = first_of(failure, names_failure(view, row, item)?);
    }
    Ok(failure)
}

/// The initialiser of a local of a type: a list goes to none.
#[tactic(auto, unfolding(tsa_types_row::specs::BodyRows::row_in_init), using(crate::proofs::LocalLaws::initial))]
fn initialiser(
    view: View<'_, '_>,
    row: &mut Row,
    thing: ThingType,
    init: &Init<'_>,
) -> Result<Initial, NoMemory>
    ensures breaks { IfOk result (λ told. told.breaks ≡ can_not_go view.entry.scope.now thing (init_shape init.now)) }
    ensures failure { IfOk result (λ told. told.failure ≡ first (premises_in_init view.entry.scope.now (init_shape init.now))) }
    ensures nodes { OnOk result (row.new ≡ row.old ++ row_in_init view.entry.scope.now view.entry.function
        (init_shape init.now)) }
{
    match init {
        Init::Value(expr) => {
            let found = view.expression(row, expr)?;
            Ok(Initial {
                breaks: cannot_go(thing, found),
                failure: found.err(),
            })
        }
        Init::List { items, .. } => {
            let failure = items_failure(view, row, items)?;
            Ok(Initial {
                breaks: true,
                failure,
            })
        }
    }
}

/// The initialiser of a local of a type, where there is one.
#[tactic(auto, using(crate::proofs::LocalLaws::initial, tsa_types_expressions::proofs::RowLaws::notes))]
fn initial_of(
    view: View<'_, '_>,
    row: &mut Row,
    thing: ThingType,
    init: Option<&Init<'_>>,
) -> Result<Initial, NoMemory>
    ensures breaks { IfOk result (λ told. told.breaks
        ≡ init_breaks view.entry.scope.now thing (option_map (λ x. init_shape x.now) init.entry)) }
    ensures failure { IfOk result (λ told. told.failure
        ≡ first (names_in view.entry.scope.now (option_map (λ x. init_shape x.now) init.entry))) }
    ensures nodes { OnOk result (row.new ≡ row.old ++ row_in_given_init view.entry.scope.now view.entry.function
        (option_map (λ x. init_shape x.now) init.entry)) }
{
    match init {
        Some(init) => initialiser(view, row, thing, init),
        None => Ok(Initial {
            breaks: false,
            failure: None,
        }),
    }
}

/// Whether a local begins with a value.
fn is_value(init: Option<&Init<'_>>) -> bool
    ensures { result ≡ spec_is_value (option_map (λ x. init_shape x.now) init.entry) }
{
    match init {
        Some(Init::Value(_)) => true,
        _ => false,
    }
}

/// The node of a local by its number and its type.
#[tactic(auto, using(crate::proofs::RowSpans::inits))]
fn local_node(local: u32, decl: &Decl<'_>, thing: ThingType) -> Node
    ensures { (here : Scope) → here.locals ≡ local → thing_type here (decl_shape decl.now).ctype ≡ thing
        → result ≡ spec_local_node here (decl_shape decl.now) }
{
    let has_value = is_value(decl.init.as_ref());
    let mark = Mark::new(Op::Declare { local, has_value }, decl.span);
    typed_node(mark, place(thing))
}

/// A local of a function, which is known behind it where its name isn't taken. It is put into the row.
#[tactic(auto, unfolding(tsa_types_row::specs::BodyRows::row_in_local, tsa_types_row::specs::BodyRows::local_parts), using(crate::proofs::LocalLaws::local, tsa_types_expressions::proofs::RowLaws::notes))]
pub fn declare_local<'a>(
    scope: &mut Scope<'a>,
    row: &mut Row,
    function: u32,
    decl: &Decl<'a>,
) -> Result<Told, NoMemory>
    ensures taken { IfOk result (λ told. told.taken ≡ is_taken decl.now.name.text.now scope.old) }
    ensures judged { IfOk result (λ told. told.failure ≡ first (local_premises scope.old (decl_shape decl.now))) }
    ensures behind { OnOk result (scope.new ≡ behind_local scope.old (decl_shape decl.now)) }
    ensures nodes { OnOk result (row.new ≡ row.old ++ row_in_local scope.old function (decl_shape decl.now)) }
{
    let number = scope.next_local();
    let place_of_node = row.open()?;
    let name = Symbol::Local { function, number };
    row.leaf(bare_node(Mark::new(Op::Declared(name), decl.name.span)))?;
    let view = View { scope, function };
    let written = view.written(row, &decl.ctype)?;
    let refused = view.is_refused(Declaring::Thing, written.resolved);
    let attributes = view.attributes(row, Bearer::Local, decl.attrs)?;
    let init = initial_of(view, row, written.thing, decl.init.as_ref())?;
    row.close(place_of_node, local_node(number, decl, written.thing))?;
    let entry = Entry {
        meaning: Meaning::Local(number),
        thing: written.thing,
    };
    let taken = !scope.declare(decl.name.text, entry)?;
    scope.count_local()?;
    let parts = LocalParts {
        taken,
        refused,
        written,
        attributes,
        init,
    };
    Ok(Told {
        taken,
        failure: local_failure(decl.span, parts),
    })
}
