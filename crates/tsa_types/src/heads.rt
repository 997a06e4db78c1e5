//! Heads of functions (C11 6.7.6.3, 6.9.1): their parameters are known one after the other, and then in the attributes and the body.
ghost use Rattle.std.specs.Prelude.{◌≡◌, ◌++◌, length, option_map, is_some, IfOk, OnOk};
ghost use Rattle.tsa_types_expressions.specs.Judgements.{Judges, forget};
ghost use Rattle.tsa_tree.specs.declarations.Shapes.{param_shape, param_shapes, head_shape};
ghost use Rattle.tsa_tree.specs.expressions.Shapes.{name_shape};
ghost use Rattle.tsa_tree.specs.types.DeclaredTypes.{declared_premises};
ghost use Rattle.tsa_tree.specs.types.Heads.{with_param, params_premises, inside_params, behind_head, inside, head_premises};
ghost use Rattle.tsa_tree.specs.types.Premises.{first};
ghost use Rattle.tsa_tree.specs.types.Scopes.{is_named_taken};
ghost use Rattle.tsa_types_row.specs.ItemRows.{param_row, row_in_param, row_in_params, row_in_head};

use crate::functions::declare_function;
use tsa_base::NoMemory;
use tsa_tree::expr::Name;
use tsa_tree::item::{FnTree, Param};
use tsa_tree::kind::Declaring;
use tsa_tree::meaning::{Entry, Meaning, Symbol};
use tsa_tree::premise::Bearer;
use tsa_types_declarations::judge_type;
use tsa_types_expressions::{Mark, TypeRefusal, View, bare_node, judged};
use tsa_types_row::{Op, Row};
use tsa_types_scope::{Scope, next_number};

/// A parameter by its function and its number, from 0; the parameters are the first locals.
#[derive(Clone, Copy)]
struct LocalNumber {
    function: u32,
    number: u32,
}

/// How many parameters there are.
fn params_count(params: &[Param<'_>]) -> Result<u32, NoMemory>
    ensures { IfOk result (λ n. n ≡ length (param_shapes params.now)) }
{
    u32::try_from(params.len()).ok().ok_or(NoMemory)
}

/// Puts the name of a parameter that has one into the row.
fn put_name(row: &mut Row, local: LocalNumber, name: Option<Name<'_>>) -> Result<(), NoMemory>
    ensures { OnOk result (row.new ≡ row.old ++ param_row local.function local.number (option_map name_shape name.entry)) }
{
    if let Some(name) = name {
        let symbol = Symbol::Local {
            function: local.function,
            number: local.number,
        };
        row.leaf(bare_node(Mark::new(Op::Declared(symbol), name.span)))?;
    }
    Ok(())
}

/// A parameter, which is known after itself.
fn declare_param<'a>(
    scope: &mut Scope<'a>,
    row: &mut Row,
    local: LocalNumber,
    param: &Param<'a>,
) -> Result<(), TypeRefusal>
    ensures judged { Judges (first (declared_premises scope.old Declaring.Thing (is_named_taken (param_shape param.now).name scope.old)
        param.now.span (param_shape param.now).ctype)) result }
    ensures behind { OnOk result (scope.new ≡ with_param local.number (param_shape param.now) scope.old) }
    ensures nodes { OnOk result (row.new ≡ row.old ++ row_in_param scope.old local.function local.number (param_shape param.now)) }
{
    put_name(row, local, param.name)?;
    let view = View {
        scope,
        function: local.function,
    };
    let typing = judge_type(view, row, Declaring::Thing, &param.ctype)?;
    let entry = Entry {
        meaning: Meaning::Local(local.number),
        thing: typing.written.thing,
    };
    let free = scope.declare_named(param.name, entry)?;
    judged(typing.failure(!free, param.span))
}

/// The parameters of a function, each of which is known after itself, by numbers from 0 on.
fn declare_params<'a>(
    scope: &mut Scope<'a>,
    row: &mut Row,
    function: u32,
    params: &[Param<'a>],
) -> Result<(), TypeRefusal>
    ensures judged { Judges (first (params_premises scope.old 0 (param_shapes params.now))) result }
    ensures behind { OnOk result (scope.new ≡ inside_params scope.old 0 (param_shapes params.now)) }
    ensures nodes { OnOk result (row.new ≡ row.old ++ row_in_params scope.old function 0 (param_shapes params.now)) }
{
    let mut number = 0;
    'each: for param in params {
        declare_param(scope, row, LocalNumber { function, number }, param)?;
        number = next_number(number)?;
    }
    Ok(())
}

/// The head of a function by its number, inside which its name and its parameters are known: how many names are known after the
/// function's own, which stay behind its body.
pub fn declare_head<'a>(
    scope: &mut Scope<'a>,
    row: &mut Row,
    function: u32,
    head: &FnTree<'a>,
) -> Result<usize, TypeRefusal>
    ensures judged { Judges (first (head_premises scope.old (head_shape head.now) (is_some head.now.body))) (forget result) }
    ensures known { IfOk result (λ n. n ≡ length (behind_head scope.old (head_shape head.now) (is_some head.now.body)).names) }
    ensures behind { OnOk result (scope.new ≡ inside scope.old (head_shape head.now) (is_some head.now.body)) }
    ensures nodes { OnOk result (row.new ≡ row.old
        ++ row_in_head scope.old function (head_shape head.now) (is_some head.now.body)) }
{
    declare_function(scope, head)?;
    let known = scope.names_len();
    let name = Op::Declared(Symbol::Function(function));
    row.leaf(bare_node(Mark::new(name, head.name.span)))?;
    declare_params(scope, row, function, head.params)?;
    scope.set_locals(params_count(head.params)?);
    let view = View { scope, function };
    judged(view.attributes(row, Bearer::Function, head.attrs)?)?;
    Ok(known)
}
