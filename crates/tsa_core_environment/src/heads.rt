//! What is known behind the head of a function, and inside it: its parameters are its first locals (C11 6.2.1p4, 6.9.1).
ghost use Rattle.std.specs.Prelude.{◌≡◌, None, Bool, false, take, length, is_some, IfOk, OnOk};
ghost use Rattle.tsa_core_environment.specs.Functions.{outside_of, IsInside};
ghost use Rattle.tsa_tree.specs.declarations.Shapes.{param_shape, param_shapes, head_shape};
ghost use Rattle.tsa_tree.specs.declarations.Syntax.{Head};
ghost use Rattle.tsa_tree.specs.types.Heads.{params_of, behind_known, behind_head, with_param, params_premises, inside_params, inside};
ghost use Rattle.tsa_tree.specs.types.Heads.{head_premises};
ghost use Rattle.tsa_tree.specs.types.Premises.{first};
ghost use Rattle.tsa_tree.specs.types.Scopes.{Scope as Known, found, with_names, with_locals, is_named_taken};

use tsa_base::NoMemory;
use tsa_place::declared_thing;
use tsa_tree::item::{FnTree, Param};
use tsa_tree::kind::ThingType;
use tsa_tree::meaning::{Entry, Meaning};
use tsa_types_scope::{FunctionTypes, Scope, next_number};

/// What is left where a function ends: how many names are known behind its head, and how many locals there were before it.
#[derive(Clone, Copy)]
pub struct Outside {
    names: usize,
    locals: u32,
}

/// The types of parameters where none of them is known.
fn params_types(scope: &Scope<'_>, params: &[Param<'_>]) -> Result<Vec<ThingType>, NoMemory>
    ensures { IfOk result (λ types. types.items ≡ params_of scope.now (param_shapes params.now)) }
{
    let mut types = Vec::new(scope.allocator());
    'each: for param in params {
        types.push(declared_thing(scope, &param.ctype)?)?;
    }
    Ok(types)
}

/// A function that is declared for the first time, where its name is free.
fn add_function<'a>(scope: &mut Scope<'a>, head: &FnTree<'a>) -> Result<(), NoMemory>
    ensures { OnOk result (found scope.old.names head.now.name.text.now ≡ None
        → scope.new ≡ behind_known scope.old (head_shape head.now) (is_some head.now.body) None) }
{
    let number = scope.next_function()?;
    let result = declared_thing(scope, &head.result)?;
    let params = params_types(scope, head.params)?;
    let entry = Entry {
        meaning: Meaning::Function(number),
        thing: result,
    };
    scope.declare(head.name.text, entry)?;
    scope.add_function(FunctionTypes {
        result,
        params,
        has_body: head.body.is_some(),
    })
}

/// A function, which is known from its first declaration on.
pub fn know_head<'a>(scope: &mut Scope<'a>, head: &FnTree<'a>) -> Result<(), NoMemory>
    ensures { OnOk result (scope.new ≡ behind_head scope.old (head_shape head.now) (is_some head.now.body)) }
{
    match scope.declared(head.name.text) {
        None => add_function(scope, head)?,
        Some(entry) => {
            if let Meaning::Function(number) = entry.meaning {
                scope.give_body(number, head.body.is_some());
            }
        }
    }
    Ok(())
}

/// How many parameters there are.
fn params_count(params: &[Param<'_>]) -> Result<u32, NoMemory>
    ensures { IfOk result (λ n. n ≡ length (param_shapes params.now)) }
{
    u32::try_from(params.len()).ok().ok_or(NoMemory)
}

/// A parameter by its number, which is known behind itself where its name is free.
fn know_param<'a>(scope: &mut Scope<'a>, number: u32, param: &Param<'a>) -> Result<(), NoMemory>
    ensures { OnOk result (is_named_taken (param_shape param.now).name scope.old ≡ false
        → scope.new ≡ with_param number (param_shape param.now) scope.old) }
{
    let entry = Entry {
        meaning: Meaning::Local(number),
        thing: declared_thing(scope, &param.ctype)?,
    };
    scope.declare_named(param.name, entry)?;
    Ok(())
}

/// Parameters that are typed, each of which is known behind itself, by numbers from 0 on.
fn know_params<'a>(scope: &mut Scope<'a>, params: &[Param<'a>]) -> Result<(), NoMemory>
    requires typed { first (params_premises scope.old 0 (param_shapes params.now)) ≡ None }
    ensures { OnOk result (scope.new ≡ inside_params scope.old 0 (param_shapes params.now)) }
{
    let mut number = 0;
    'each: for param in params {
        know_param(scope, number, param)?;
        number = next_number(number)?;
    }
    Ok(())
}

/// Enters a function whose head is typed: its name and its parameters are known in its attributes and its body. What is left behind it.
pub fn enter<'a>(scope: &mut Scope<'a>, head: &FnTree<'a>) -> Result<Outside, NoMemory>
    requires typed { first (head_premises scope.old (head_shape head.now) (is_some head.now.body)) ≡ None }
    ensures inside { OnOk result (scope.new ≡ inside scope.old (head_shape head.now) (is_some head.now.body)) }
    ensures outside { IfOk result (λ outside. outside ≡ outside_of scope.old (head_shape head.now) (is_some head.now.body)) }
{
    let locals = scope.next_local();
    know_head(scope, head)?;
    let names = scope.names_len();
    know_params(scope, head.params)?;
    scope.set_locals(params_count(head.params)?);
    Ok(Outside { names, locals })
}

/// Leaves a function that was entered, however many locals were counted in it: its parameters end with it.
pub fn leave(scope: &mut Scope<'_>, outside: Outside)
    ensures left { scope.new ≡ with_locals outside.locals (with_names (take outside.names scope.old.names) scope.old) }
    ensures behind { (here : Known) (head : Head) (with_body : Bool) → outside ≡ outside_of here head with_body
        → IsInside here head with_body scope.old → scope.new ≡ behind_head here head with_body }
{
    scope.leave(outside.names, outside.locals);
}
