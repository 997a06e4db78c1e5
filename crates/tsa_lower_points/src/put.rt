//! A point as instructions.
ghost use Rattle.std.specs.Prelude.{◌≡◌, ◌++◌, length, true, false, OnOk, IfOk};
ghost use Rattle.tsa_lower_points.specs.Callees.{callee_in};
ghost use Rattle.tsa_lower_points.specs.Points.{begin_of, height_of, rest_of};

use crate::callee::Callee;
use crate::point::PointNode;
use tsa_base::NoMemory;
use tsa_lower_code::Instr;
use tsa_tree::kind::Kind;

/// Where the code of a point begins, where that of what is done behind its call does, and the first slot above all that it uses.
#[derive(Clone, Copy)]
pub struct PutPoint {
    pub entry: usize,
    pub behind_call: usize,
    pub top: u32,
}

/// A function by its number; one that isn't known has no body and no attributes.
fn callee_at(callees: &[Callee], function: u32) -> Callee
    ensures { result ≡ callee_in callees.now function }
{
    match callees.get(function as usize) {
        Some(callee) => *callee,
        None => Callee {
            has_body: false,
            result: Kind::Void,
            lock: None,
        },
    }
}

impl PointNode<'_> {
    /// Its call, or where it has none what is done.
    fn put_begin(&self, out: &mut Vec<Instr>, callees: &[Callee]) -> Result<(), NoMemory>
        requires { self.now.source.is_answered ≡ false }
        ensures { OnOk result (out.new.items ≡ out.old.items ++ begin_of callees.now self.now) }
    {
        match self.call() {
            None => self.put_action(out),
            Some(call) => self.put_call(out, call, callee_at(callees, call.function)),
        }
    }

    /// How many slots its call or what is done uses, whichever uses more.
    fn reach(&self) -> Result<u32, NoMemory>
        ensures { IfOk result (λ top. top ≡ height_of self.now) }
    {
        let top = self.reach_action()?;
        match self.call() {
            None => Ok(top),
            Some(call) => Ok(top.max(self.source.reach_args(call)?)),
        }
    }

    /// Puts the point behind all instructions that are there: its call, or where it has none what is done; and behind that what is done when
    /// the call is answered.
    pub fn put_point(&self, out: &mut Vec<Instr>, callees: &[Callee]) -> Result<PutPoint, NoMemory>
        ensures code { OnOk result (out.new.items ≡ (out.old.items ++ begin_of callees.now self.now) ++ rest_of self.now) }
        ensures entry { IfOk result (λ put. put.entry ≡ length out.old.items) }
        ensures behind_call { IfOk result (λ put. put.behind_call ≡ length (out.old.items ++ begin_of callees.now self.now)) }
        ensures top { IfOk result (λ put. put.top ≡ height_of self.now) }
    {
        let entry = out.len();
        self.answering(false).put_begin(out, callees)?;
        let behind_call = out.len();
        self.answering(true).put_action(out)?;
        Ok(PutPoint {
            entry,
            behind_call,
            top: self.reach()?,
        })
    }
}
