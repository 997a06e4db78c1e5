//! The code of parts where values of a kind are wanted, and of the arguments of a call.
ghost use Rattle.std.specs.Prelude.{◌≡◌, ◌≤◌, ◌++◌, false, IfOk, OnOk};
ghost use Rattle.tsa_core_rows.specs.Reading.{args_read, behind_parts};
ghost use Rattle.tsa_lower_code.specs.PointCodes.{args_code, args_height};
ghost use Rattle.tsa_lower_terms.specs.Codes.{as_kind_at, converted_code, converts, unanswered};
ghost use Rattle.tsa_lower_terms.specs.Sources.{params_by, parts_at, sense_at};

use crate::calls::FoundCall;
use crate::emit::{next, put};
use crate::find::Source;
use crate::lower::Job;
use tsa_base::NoMemory;
use tsa_lower_code::Instr;
use tsa_tree::kind::{Kind, ThingType};

/// Arguments that are still to be lowered: the node that they are looked for from, the slot of the first one, and how many there are.
#[derive(Clone, Copy)]
struct Args {
    at: usize,
    slot: u32,
    count: usize,
}

/// Whether a value of a kind is converted where one of another is wanted.
fn is_converted(wanted: Kind, kind: Kind) -> bool
    ensures { result ≡ converts wanted kind }
{
    matches!(
        (wanted, kind),
        (Kind::Int, Kind::Unsigned) | (Kind::Unsigned, Kind::Int)
    )
}

impl<'a> Source<'a> {
    /// The same where the call of the point isn't answered yet, as for its arguments.
    pub fn unanswered(&self) -> Source<'a>
        ensures { result ≡ unanswered self.now }
    {
        Source {
            row: self.row,
            functions: self.functions,
            places: self.places,
            is_answered: false,
        }
    }

    /// The code of a part's value where one of a kind is wanted.
    pub fn put_as_kind(&self, out: &mut Vec<Instr>, kind: Kind, job: Job) -> Result<usize, NoMemory>
        ensures code { OnOk result (out.new.items ≡ out.old.items ++ as_kind_at self.now kind job.at job.slot) }
        ensures end { IfOk result (λ end. parts_at self.now end ≡ behind_parts 1 (parts_at self.now job.at)) }
        ensures ahead { IfOk result (λ end. job.at ≤ end) }
    {
        match kind {
            Kind::Int | Kind::Unsigned => self.put_converted(out, kind, job),
            _ => self.put_beside(out, kind, job),
        }
    }

    /// The code of a part's value as another kind of integer, where it is one.
    fn put_converted(&self, out: &mut Vec<Instr>, kind: Kind, job: Job) -> Result<usize, NoMemory>
        ensures code { OnOk result (out.new.items ≡ out.old.items ++ converted_code self.now kind (sense_at self.now job.at) job.slot) }
        ensures end { IfOk result (λ end. parts_at self.now end ≡ behind_parts 1 (parts_at self.now job.at)) }
        ensures ahead { IfOk result (λ end. job.at ≤ end) }
    {
        let end = self.put_value(out, job)?;
        if is_converted(kind, self.type_at(job.at).thing.kind) {
            put(out, Instr::Convert { at: job.slot, kind })?;
        }
        Ok(end)
    }

    /// The parameters of a function, none of one that isn't declared.
    fn params(&self, function: u32) -> &'a [ThingType]
        ensures { result.now ≡ params_by self.now.functions function }
    {
        match self.functions.get(function as usize) {
            Some(known) => &known.params,
            None => &[],
        }
    }

    /// The code of a call's arguments from slot 1 on, and where the row goes on behind them.
    pub fn put_args(&self, out: &mut Vec<Instr>, call: FoundCall) -> Result<usize, NoMemory>
        ensures code { OnOk result (out.new.items ≡ out.old.items ++ args_code self.now.layout
            (args_read (params_by self.now.functions call.function) call.args (parts_at self.now call.at)) 1) }
        ensures end { IfOk result (λ end. parts_at self.now end ≡ behind_parts call.args (parts_at self.now call.at)) }
    {
        let args = Args {
            at: call.at,
            slot: 1,
            count: call.args,
        };
        self.unanswered()
            .put_given(out, self.params(call.function), args)
    }

    /// The code of arguments for parameters, one slot after the other.
    fn put_given(
        &self,
        out: &mut Vec<Instr>,
        params: &[ThingType],
        args: Args,
    ) -> Result<usize, NoMemory>
        requires { self.now.is_answered ≡ false }
        ensures code { OnOk result (out.new.items ≡ out.old.items ++ args_code self.now.layout (args_read params.now args.count (parts_at self.now args.at)) args.slot) }
        ensures end { IfOk result (λ end. parts_at self.now end ≡ behind_parts args.count (parts_at self.now args.at)) }
    {
        let Some((param, rest)) = params.split_first() else {
            return Ok(self.pass(args.at, args.count));
        };
        let Some(count) = args.count.checked_sub(1) else {
            return Ok(args.at);
        };
        let Some(_) = self.find(args.at, 0) else {
            return Ok(args.at);
        };
        let job = Job {
            at: args.at,
            slot: args.slot,
        };
        let at = self.put_as_kind(out, param.kind, job)?;
        let slot = next(args.slot)?;
        self.put_given(out, rest, Args { at, slot, count })
    }
    /// The first slot above all that the code of a call's arguments uses.
    pub fn reach_args(&self, call: FoundCall) -> Result<u32, NoMemory>
        ensures { IfOk result (λ top. top ≡ args_height (args_read (params_by self.now.functions call.function) call.args (parts_at self.now call.at)) 1) }
    {
        let args = Args {
            at: call.at,
            slot: 1,
            count: call.args,
        };
        self.reach_given(self.params(call.function), args)
    }

    /// The first slot above all that the code of arguments for parameters uses.
    fn reach_given(&self, params: &[ThingType], args: Args) -> Result<u32, NoMemory>
        ensures { IfOk result (λ top. top ≡ args_height (args_read params.now args.count (parts_at self.now args.at)) args.slot) }
    {
        let Some((param, rest)) = params.split_first() else {
            return Ok(args.slot);
        };
        let Some(count) = args.count.checked_sub(1) else {
            return Ok(args.slot);
        };
        let Some(_) = self.find(args.at, 0) else {
            return Ok(args.slot);
        };
        let job = Job {
            at: args.at,
            slot: args.slot,
        };
        let first = self.reach_as_kind(param.kind, job)?;
        let slot = next(args.slot)?;
        let others = self.reach_given(
            rest,
            Args {
                at: first.end,
                slot,
                count,
            },
        )?;
        Ok(first.top.max(others))
    }
}
