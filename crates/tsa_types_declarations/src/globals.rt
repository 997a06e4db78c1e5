//! Globals (C11 6.9.2): each is known in its own attributes, length and initialiser.
ghost use Rattle.std.specs.Prelude.{◌≡◌, ◌++◌, Bool, option_map, IfOk, OnOk};
ghost use Rattle.tsa_types_expressions.specs.Judgements.{Judges};
ghost use Rattle.tsa_types_expressions.specs.Lengths.{name_premises};
ghost use Rattle.tsa_tree.specs.declarations.Shapes.{decl_shape, init_shape};
ghost use Rattle.tsa_tree.specs.types.DeclaredTypes.{thing_type, typed_premises};
ghost use Rattle.tsa_tree.specs.types.Globals.{bearer_of as spec_bearer_of, inside_global, global_premises, global_init};
ghost use Rattle.tsa_tree.specs.types.Premises.{first};
ghost use Rattle.tsa_tree.specs.types.Units.{behind_item};
ghost use Rattle.tsa_tree.specs.units.Syntax.{global_item};
ghost use Rattle.tsa_types_row.specs.BodyRows.{aside_given_init, aside_declaration};
ghost use Rattle.tsa_types_row.specs.ItemRows.{row_in_global};

use crate::declarations::{Typing, judge_type};
use crate::initialisers::initialiser;
use tsa_base::NoMemory;
use tsa_tree::decl::{Decl, Init};
use tsa_tree::kind::{Declaring, ThingType};
use tsa_tree::meaning::{Entry, Meaning, Symbol};
use tsa_tree::premise::{Bearer, Failure};
use tsa_types_expressions::{Mark, TypeRefusal, View, bare_node, first_of, judged};
use tsa_types_operators::{place, struct_of};
use tsa_types_row::{Op, Row};
use tsa_types_scope::Scope;

/// What a global is to attributes: one that is a lock and no array bears the order of locks too.
fn bearer_of(scope: &Scope<'_>, thing: ThingType) -> Bearer
    ensures { result ≡ spec_bearer_of scope.now thing }
{
    if scope.is_lock(struct_of(place(thing))) {
        Bearer::Lock
    } else {
        Bearer::Global
    }
}

/// The type of a global where the global isn't known yet. Its length is put into the row elsewhere.
fn judge_outside(scope: &Scope<'_>, decl: &Decl<'_>) -> Result<Typing, NoMemory>
    ensures thing { IfOk result (λ typing. typing.written.thing ≡ thing_type scope.now (decl_shape decl.now).ctype) }
    ensures outer { IfOk result (λ typing. (taken : Bool) → first (name_premises taken typing.refused decl.now.span typing.written.resolved)
        ≡ first (typed_premises scope.now Declaring.Thing taken decl.now.span (decl_shape decl.now).ctype)) }
{
    let view = View { scope, function: 0 };
    let mut unheard = Row::new(scope.allocator());
    judge_type(view, &mut unheard, Declaring::Thing, &decl.ctype)
}

/// The initialiser of a global of a type, where there is one: what is wrong with it. It is put into the row.
#[tactic(auto, using(tsa_types_expressions::proofs::Sequences::nothing_fails, tsa_types_expressions::proofs::RowLaws::notes))]
fn given_initialiser(
    view: View<'_, '_>,
    row: &mut Row,
    thing: ThingType,
    init: &Option<Init<'_>>,
) -> Result<Option<Failure>, NoMemory>
    ensures judged { IfOk result (λ failure. failure
        ≡ first (global_init view.entry.scope.now view.entry.scope.now.globals thing (option_map init_shape init.now))) }
    ensures nodes { OnOk result (row.new ≡ row.old ++ aside_given_init view.entry.scope.now view.entry.function
        (option_map init_shape init.now)) }
{
    match init {
        Some(init) => initialiser(view, row, Some(thing), init),
        None => Ok(None),
    }
}

/// What is wrong with a global of a type where it is known. The expressions of its declaration are put into the row.
fn judge_inside(
    scope: &Scope<'_>,
    row: &mut Row,
    thing: ThingType,
    decl: &Decl<'_>,
) -> Result<Option<Failure>, NoMemory>
    ensures judged { IfOk result (λ failure. failure ≡ first (inside_global scope.now scope.now.globals thing (decl_shape decl.now))) }
    ensures nodes { OnOk result (row.new ≡ row.old ++ aside_declaration scope.now 0 (decl_shape decl.now)) }
{
    let view = View { scope, function: 0 };
    let length = view.length(row, decl.ctype.length)?;
    let guards = view.attributes(row, bearer_of(scope, thing), decl.attrs)?;
    let init = given_initialiser(view, row, thing, &decl.init)?;
    Ok(first_of(length.failure, first_of(guards, init)))
}

/// A global, which is known from after its declarator on.
pub fn declare_global<'a>(
    scope: &mut Scope<'a>,
    row: &mut Row,
    decl: &Decl<'a>,
) -> Result<(), TypeRefusal>
    ensures judged { Judges (first (global_premises scope.old (decl_shape decl.now))) result }
    ensures behind { OnOk result (scope.new ≡ behind_item scope.old (global_item (decl_shape decl.now))) }
    ensures nodes { OnOk result (row.new ≡ row.old ++ row_in_global scope.old (decl_shape decl.now)) }
{
    let own = scope.next_global();
    let typing = judge_outside(scope, decl)?;
    let entry = Entry {
        meaning: Meaning::Global(own),
        thing: typing.written.thing,
    };
    let free = scope.declare(decl.name.text, entry)?;
    judged(typing.outer_failure(!free, decl.span))?;
    let name = Mark::new(Op::Declared(Symbol::Global(own)), decl.name.span);
    row.leaf(bare_node(name))?;
    judged(judge_inside(scope, row, typing.written.thing, decl)?)?;
    scope.count_global()?;
    Ok(())
}
