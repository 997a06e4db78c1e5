//! The calls of points, as instructions: the arguments go to the slots from 1 on.
ghost use Rattle.std.specs.Prelude.{◌≡◌, ◌++◌, ◌∷◌, [], ◌≤◌, length, option_map, OnOk, IfOk};
ghost use Rattle.tsa_core_rows.specs.Reading.{args_read};
ghost use Rattle.tsa_lower_points.specs.Actions.{call_by};
ghost use Rattle.tsa_lower_points.specs.Callees.{called_code, done_code, outside_done};
ghost use Rattle.tsa_lower_terms.specs.Sources.{call_in_part, call_read, params_by, parts_at};

use crate::actions::{put, put_end};
use crate::callee::{Callee, LockDeed};
use crate::point::PointNode;
use tsa_base::NoMemory;
use tsa_lower_code::{Ending, Instr};
use tsa_lower_terms::{FoundCall, Source};
use tsa_sched::TrapKind;
use tsa_tree::kind::{Kind, ThingType};
use tsa_types_row::Op;

/// A call whose arguments are there: the function, how many they are, and the kind of the function's result.
#[derive(Clone, Copy)]
struct Given {
    function: u32,
    count: u32,
    result: Kind,
}

/// How many arguments there are for parameters, of so many from a node on.
fn given_count(source: &Source<'_>, params: &[ThingType], at: usize, count: usize) -> usize
    ensures is { result ≡ length (args_read params.now count (parts_at source.now at)) }
    ensures few { result ≤ length params.now }
{
    let Some((_, rest)) = params.split_first() else {
        return 0;
    };
    let Some(count) = count.checked_sub(1) else {
        return 0;
    };
    let Some(_) = source.find(at, 0) else {
        return 0;
    };
    1 + given_count(source, rest, source.pass(at, 1), count)
}

/// What is done outside of bodies: a lock is taken or given back, or the environment is asked.
fn put_outside(out: &mut Vec<Instr>, given: Given, lock: Option<LockDeed>) -> Result<(), NoMemory>
    ensures { OnOk result (out.new.items ≡ out.old.items ++ outside_done given.count given.function given.result lock) }
{
    let Given {
        function,
        count,
        result,
    } = given;
    match lock {
        None => put_end(out, Ending::Ask { function, result }),
        Some(_) if count == 0 => put(
            out,
            Instr::Stop {
                kind: TrapKind::NullPointer,
            },
        ),
        Some(deed) => {
            put(out, Instr::Follow { at: 1 })?;
            put_end(
                out,
                Ending::Lock {
                    kind: deed.kind,
                    success: deed.success,
                    from: 1,
                    function,
                    result,
                },
            )
        }
    }
}

/// What is done when the arguments are there.
fn put_done(out: &mut Vec<Instr>, callee: Callee, function: u32, count: u32) -> Result<(), NoMemory>
    ensures { OnOk result (out.new.items ≡ out.old.items ++ done_code callee count function) }
{
    if callee.has_body {
        return put_end(
            out,
            Ending::Enter {
                function,
                from: 1,
                count,
            },
        );
    }
    let given = Given {
        function,
        count,
        result: callee.result,
    };
    put_outside(out, given, callee.lock)
}

impl PointNode<'_> {
    /// The call that is made before all else, if there is one.
    pub fn call(&self) -> Option<FoundCall>
        ensures { option_map (call_read self.now.source) result ≡ call_by self.now self.now.op }
    {
        match self.op {
            Op::Declare {
                has_value: true,
                ..
            }
            | Op::Evaluate
            | Op::Test { given: true }
            | Op::Give { given: true } => self.source.call_at(self.behind),
            Op::Set(_) => self.source.call_at(self.source.pass(self.behind, 1)),
            _ => None,
        }
    }

    /// How many arguments a call is given.
    fn args_given(&self, call: FoundCall) -> usize
        ensures { result ≡ length (call_read self.now.source call).args }
    {
        match self.source.functions.get(call.function as usize) {
            Some(known) => given_count(&self.source, &known.params, call.at, call.args),
            None => 0,
        }
    }

    /// A call, of which this is known.
    pub(crate) fn put_call(
        &self,
        out: &mut Vec<Instr>,
        call: FoundCall,
        callee: Callee,
    ) -> Result<(), NoMemory>
        ensures { OnOk result (out.new.items ≡ out.old.items ++ called_code self.now.source.layout callee (call_read self.now.source call)) }
    {
        let count = u32::try_from(self.args_given(call)).map_err(|_| NoMemory)?;
        self.source.put_args(out, call)?;
        put_done(out, callee, call.function, count)
    }
}
