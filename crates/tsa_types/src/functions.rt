//! Functions by their declarations (C11 6.7.6.3, 6.9.1): a later one beside the first, and what is known from each on.
ghost use Rattle.std.specs.Prelude.{◌≡◌, ◌&&◌, not, false, slice_get, IfOk, OnOk, is_some};
ghost use Rattle.tsa_types_expressions.specs.Judgements.{Judges};
ghost use Rattle.tsa_tree.specs.declarations.Shapes.{param_shapes, head_shape};
ghost use Rattle.tsa_tree.specs.types.DeclaredTypes.{resolve as spec_resolve, declared_premises};
ghost use Rattle.tsa_tree.specs.types.Heads.{params_of, same_kind as spec_same_kind, agrees as spec_agrees, agree, differs as spec_differs};
ghost use Rattle.tsa_tree.specs.types.Heads.{is_another as spec_is_another, behind_head};
ghost use Rattle.tsa_tree.specs.types.Premises.{first};
ghost use Rattle.tsa_tree.specs.types.Scopes.{found, is_taken};
ghost use Rattle.tsa_tree.specs.types.Symbols.{meant_function as spec_meant_function, number_of};
ghost use Rattle.tsa_types.specs.Functions.{first_known};

use tsa_base::NoMemory;
use tsa_tree::item::{FnTree, Param};
use tsa_tree::kind::{Declaring, Kind, Resolved, ThingType};
use tsa_tree::meaning::{Entry, Meaning};
use tsa_types_declarations::judge_type;
use tsa_types_expressions::{TypeRefusal, View, judged};
use tsa_types_row::Row;
use tsa_types_scope::{FunctionTypes, Scope};

/// Whether two kinds are the same.
fn same_kind(a: Kind, b: Kind) -> bool
    ensures { result ≡ spec_same_kind a b }
{
    match (a, b) {
        (Kind::Int, Kind::Int) | (Kind::Unsigned, Kind::Unsigned) | (Kind::Void, Kind::Void) =>
            true,
        (Kind::Structure(m), Kind::Structure(n)) => m == n,
        (
            Kind::Pointer {
                target: m,
                to_const: c,
            },
            Kind::Pointer {
                target: n,
                to_const: d,
            },
        ) => m == n && c == d,
        _ => false,
    }
}

/// Whether a written type is the one that is known, or none of the language's.
fn agrees(known: Kind, written: Resolved) -> bool
    ensures { result ≡ spec_agrees known written }
{
    match written {
        Resolved::Type(thing) => same_kind(known, thing.kind),
        _ => true,
    }
}

/// Whether parameters have the types that are known.
#[tactic(auto, using(crate::proofs::FunctionLaws::none_left))]
fn same_params(view: View<'_, '_>, known: &[ThingType], params: &[Param<'_>]) -> bool
    ensures { result ≡ agree view.entry.scope.now known.now (param_shapes params.now) }
{
    let mut number = 0;
    'each: for param in params {
        match known.get(number) {
            Some(other) => {
                if !agrees(other.kind, view.resolve(&param.ctype)) {
                    return false;
                }
            }
            None => return false,
        }
        number += 1;
    }
    known.get(number).is_none()
}

/// Whether a head has other types than are known.
fn retypes(view: View<'_, '_>, head: &FnTree<'_>, known: &FunctionTypes) -> bool
    ensures { result ≡ not (spec_agrees known.now.result.kind (spec_resolve view.entry.scope.now (head_shape head.now).result)
        && agree view.entry.scope.now known.now.params (head_shape head.now).params) }
{
    let result = view.resolve(&head.result);
    !(agrees(known.result.kind, result) && same_params(view, &known.params, head.params))
}

/// Whether a head differs from the first declaration of its function: it has other types, attributes, or a second body.
fn differs(scope: &Scope<'_>, head: &FnTree<'_>, function: u32) -> bool
    ensures { result ≡ spec_differs scope.now (head_shape head.now) (is_some head.now.body) (slice_get scope.now.functions function) }
{
    match scope.function(function) {
        None => false,
        Some(known) => {
            (known.has_body && head.body.is_some())
                || !head.attrs.is_empty()
                || retypes(View { scope, function }, head, known)
        }
    }
}

/// Whether the name of a head is declared as something else.
fn is_another(scope: &Scope<'_>, head: &FnTree<'_>) -> bool
    ensures { result ≡ spec_is_another scope.now (head_shape head.now) (is_some head.now.body)
        (found scope.now.names head.now.name.text.now) }
{
    match scope.declared(head.name.text) {
        None => false,
        Some(entry) => match entry.meaning {
            Meaning::Function(number) => differs(scope, head, number),
            _ => true,
        },
    }
}

/// The types of parameters where none of them is known. They are put into the row where they are declared.
fn params_types(scope: &Scope<'_>, params: &[Param<'_>]) -> Result<Vec<ThingType>, NoMemory>
    ensures { IfOk result (λ types. types.items ≡ params_of scope.now (param_shapes params.now)) }
{
    let view = View { scope, function: 0 };
    let mut unheard = Row::new(scope.allocator());
    let mut types = Vec::new(scope.allocator());
    'each: for param in params {
        let written = view.written(&mut unheard, &param.ctype)?;
        types.push(written.thing)?;
    }
    Ok(types)
}

/// A function that is declared for the first time, with a result, where its name is free.
fn add_function<'a>(
    scope: &mut Scope<'a>,
    head: &FnTree<'a>,
    gives: ThingType,
) -> Result<(), NoMemory>
    ensures { OnOk result (is_taken head.now.name.text.now scope.old ≡ false
        → scope.new ≡ first_known scope.old (head_shape head.now) (is_some head.now.body) gives) }
{
    let number = scope.next_function()?;
    let params = params_types(scope, head.params)?;
    let entry = Entry {
        meaning: Meaning::Function(number),
        thing: gives,
    };
    scope.declare(head.name.text, entry)?;
    scope.add_function(FunctionTypes {
        result: gives,
        params,
        has_body: head.body.is_some(),
    })
}

/// The name of a function with its result: the function is known from its first declaration on.
pub fn declare_function<'a>(scope: &mut Scope<'a>, head: &FnTree<'a>) -> Result<(), TypeRefusal>
    ensures judged { Judges (first (declared_premises scope.old Declaring.Result
        (spec_is_another scope.old (head_shape head.now) (is_some head.now.body) (found scope.old.names head.now.name.text.now))
        head.now.name.span (head_shape head.now).result)) result }
    ensures behind { OnOk result (scope.new ≡ behind_head scope.old (head_shape head.now) (is_some head.now.body)) }
{
    let view = View { scope, function: 0 };
    let mut unheard = Row::new(scope.allocator());
    let typing = judge_type(view, &mut unheard, Declaring::Result, &head.result)?;
    judged(typing.failure(is_another(scope, head), head.name.span))?;
    match scope.declared(head.name.text) {
        None => add_function(scope, head, typing.written.thing)?,
        Some(entry) => {
            if let Meaning::Function(number) = entry.meaning {
                scope.give_body(number, head.body.is_some());
            }
        }
    }
    Ok(())
}

/// The function that a meaning is, or 0.
fn meant_function(meaning: Meaning) -> u32
    ensures { result ≡ spec_meant_function meaning }
{
    match meaning {
        Meaning::Function(number) => number,
        _ => 0,
    }
}

/// The number of a function, by its first declaration.
pub fn function_number(scope: &Scope<'_>, head: &FnTree<'_>) -> Result<u32, NoMemory>
    ensures { IfOk result (λ n. n ≡ number_of scope.now (head_shape head.now)) }
{
    match scope.declared(head.name.text) {
        None => scope.next_function(),
        Some(entry) => Ok(meant_function(entry.meaning)),
    }
}
