//! What points do, as instructions: the right side of an assignment goes to slot 1, the place of its left side to slot 2.
ghost use Rattle.std.specs.Prelude.{◌≡◌, ◌++◌, ◌∷◌, [], pos, if◌then◌else◌, OnOk};
ghost use Rattle.tsa_base.specs.declared.value.Value.TheVariants.{Int};
ghost use Rattle.tsa_core.specs.Terms.{constant};
ghost use Rattle.tsa_core.specs.Bodies.{zero_term, assigned, right_side};
ghost use Rattle.tsa_core.specs.Meanings.{as_kind, loaded};
ghost use Rattle.tsa_core_rows.specs.Reading.{part_at};
ghost use Rattle.tsa_lower_code.specs.Codes.{value_code};
ghost use Rattle.tsa_lower_code.specs.PointCodes.{action_code, set_code, store_code, write_code};
ghost use Rattle.tsa_lower_code.specs.declared.instr.Instr.TheVariants.{Constant, End};
ghost use Rattle.tsa_lower_points.specs.Actions.{code_of, local_of};
ghost use Rattle.tsa_lower_terms.specs.Sources.{parts_at, sense_at};
ghost use Rattle.tsa_mean.specs.Frames.{value_or_place};

use crate::point::PointNode;
use tsa_base::{NoMemory, Value};
use tsa_lower_code::{Ending, Instr};
use tsa_lower_terms::{Head, Job};
use tsa_place::zero_of;
use tsa_tree::expr::BinaryOp;
use tsa_tree::kind::Kind;
use tsa_types_row::Op;

/// How an assignment sets its left side: by an operator on the old value or without one, in the kind of the left side.
#[derive(Clone, Copy)]
struct Setting {
    op: Option<BinaryOp>,
    kind: Kind,
}

/// One instruction more.
pub(crate) fn put(out: &mut Vec<Instr>, instr: Instr) -> Result<(), NoMemory>
    ensures { OnOk result (out.new.items ≡ out.old.items ++ instr ∷ []) }
{
    Ok(out.push(instr)?)
}

/// The end of the point.
pub(crate) fn put_end(out: &mut Vec<Instr>, ending: Ending) -> Result<(), NoMemory>
    ensures { OnOk result (out.new.items ≡ out.old.items ++ End ending ∷ []) }
{
    put(out, Instr::End { ending })
}

/// A value that is known, in slot 1.
fn put_constant(out: &mut Vec<Instr>, value: Value) -> Result<(), NoMemory>
    ensures { OnOk result (out.new.items ≡ out.old.items ++ Constant 1 value ∷ []) }
{
    put(out, Instr::Constant { to: 1, value })
}

/// An operator on the old value in a slot and the right side, in the kind of the left side.
fn put_joined(out: &mut Vec<Instr>, op: BinaryOp, kind: Kind, old: u32) -> Result<(), NoMemory>
    ensures { OnOk result (out.new.items ≡ out.old.items ++ store_code op kind old []) }
{
    put(
        out,
        Instr::Join {
            left: old,
            right: 1,
            to: 1,
            op,
        },
    )?;
    put(out, Instr::Convert { at: 1, kind })
}

impl PointNode<'_> {
    /// The value of the first part, which may be a place that isn't read.
    fn put_evaluation(&self, out: &mut Vec<Instr>) -> Result<(), NoMemory>
        ensures { OnOk result (out.new.items ≡ out.old.items
            ++ value_code self.now.source.layout self.now.source.is_answered (value_or_place (loaded (sense_at self.now.source self.now.behind))) 1) }
    {
        let source = &self.source;
        if source.is_place_at(self.behind) && !source.is_read_at(self.behind) {
            source.put_place(out, self.first(1))?;
        } else {
            source.put_value(out, self.first(1))?;
        }
        Ok(())
    }

    /// The value of the first part where one of a kind is wanted, or zero where none is given.
    fn put_given(&self, out: &mut Vec<Instr>, kind: Kind, given: bool) -> Result<(), NoMemory>
        ensures { OnOk result (out.new.items ≡ out.old.items ++ value_code self.now.source.layout self.now.source.is_answered
            (if given then as_kind kind (sense_at self.now.source self.now.behind) else zero_term kind) 1) }
    {
        if given {
            self.source.put_as_kind(out, kind, self.first(1))?;
            Ok(())
        } else {
            put_constant(out, zero_of(kind))
        }
    }

    /// The value of a test, which is 1 where it is left out.
    fn put_tested(&self, out: &mut Vec<Instr>, given: bool) -> Result<(), NoMemory>
        ensures { OnOk result (out.new.items ≡ out.old.items ++ value_code self.now.source.layout self.now.source.is_answered
            (if given then loaded (sense_at self.now.source self.now.behind) else constant (Int (pos 1))) 1) }
    {
        if given {
            self.source.put_value(out, self.first(1))?;
            Ok(())
        } else {
            put_constant(out, Value::Int(1))
        }
    }

    /// The right side of an assignment: beside an operator it keeps its kind.
    fn put_right(&self, out: &mut Vec<Instr>, setting: Setting) -> Result<(), NoMemory>
        ensures { OnOk result (out.new.items ≡ out.old.items ++ value_code self.now.source.layout self.now.source.is_answered
            (right_side setting.op setting.kind (part_at 1 (parts_at self.now.source self.now.behind)).sense) 1) }
    {
        let at = self.source.pass(self.behind, 1);
        let job = Job { at, slot: 1 };
        match setting.op {
            None => self.source.put_as_kind(out, setting.kind, job)?,
            Some(_) => self.source.put_value(out, job)?,
        };
        Ok(())
    }

    /// A local is set to the right side, which an operator may join with the old value.
    fn put_set(&self, out: &mut Vec<Instr>, setting: Setting, number: u32) -> Result<(), NoMemory>
        ensures { OnOk result (out.new.items ≡ out.old.items ++ set_code self.now.source.layout self.now.source.is_answered number setting.op setting.kind
            (right_side setting.op setting.kind (part_at 1 (parts_at self.now.source self.now.behind)).sense)) }
    {
        self.put_right(out, setting)?;
        if let Some(op) = setting.op {
            put(out, Instr::Local { to: 2, number })?;
            put_joined(out, op, setting.kind, 2)?;
        }
        put_end(out, Ending::Set { number, from: 1 })
    }

    /// A cell is set to the right side, which an operator may join with the old value.
    fn put_write(&self, out: &mut Vec<Instr>, setting: Setting) -> Result<(), NoMemory>
        ensures { OnOk result (out.new.items ≡ out.old.items ++ write_code self.now.source.layout self.now.source.is_answered
            (sense_at self.now.source self.now.behind).term setting.op setting.kind
            (right_side setting.op setting.kind (part_at 1 (parts_at self.now.source self.now.behind)).sense)) }
    {
        self.put_right(out, setting)?;
        self.source.unanswered().put_place(out, self.first(2))?;
        if let Some(op) = setting.op {
            put(out, Instr::Load { from: 2, to: 3 })?;
            put_joined(out, op, setting.kind, 3)?;
        }
        put_end(out, Ending::Write { at: 1 })
    }

    /// The local that the first part is, if it is one.
    pub(crate) fn local(&self) -> Option<u32>
        ensures { result ≡ local_of (sense_at self.now.source self.now.behind).term }
    {
        match self.source.find(self.behind, 0)?.head {
            Head::Variable(number) => Some(number),
            _ => None,
        }
    }

    /// An assignment to a local or to a cell.
    fn put_assignment(&self, out: &mut Vec<Instr>, op: Option<BinaryOp>) -> Result<(), NoMemory>
        ensures { OnOk result (out.new.items ≡ out.old.items ++ action_code self.now.source.layout self.now.source.is_answered
            (assigned (sense_at self.now.source self.now.behind) op (part_at 1 (parts_at self.now.source self.now.behind)).sense)) }
    {
        let kind = self.source.type_at(self.behind).thing.kind;
        let setting = Setting { op, kind };
        match self.local() {
            Some(number) => self.put_set(out, setting, number),
            None => self.put_write(out, setting),
        }
    }

    /// What is done at the point.
    pub fn put_action(&self, out: &mut Vec<Instr>) -> Result<(), NoMemory>
        ensures { OnOk result (out.new.items ≡ out.old.items ++ code_of self.now) }
    {
        match self.op {
            Op::Declare { local, has_value } => {
                self.put_given(out, self.kind, has_value)?;
                put_end(
                    out,
                    Ending::Set {
                        number: local,
                        from: 1,
                    },
                )
            }
            Op::Evaluate => {
                self.put_evaluation(out)?;
                put_end(out, Ending::Step)
            }
            Op::Set(op) => self.put_assignment(out, op),
            Op::Test { given } => {
                self.put_tested(out, given)?;
                put_end(out, Ending::Branch { from: 1 })
            }
            Op::Branch => {
                self.source.put_value(out, self.first(1))?;
                put_end(out, Ending::Choose { from: 1 })
            }
            Op::Give { given } => {
                self.put_given(out, self.result, given)?;
                put_end(out, Ending::Leave { from: 1 })
            }
            Op::End => {
                self.put_given(out, self.result, false)?;
                put_end(out, Ending::Leave { from: 1 })
            }
            _ => put_end(out, Ending::Step),
        }
    }
}
