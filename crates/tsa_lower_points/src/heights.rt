//! How many slots what is done at points uses.
ghost use Rattle.std.specs.Prelude.{◌≡◌, ◌+◌, max, pos, if◌then◌else◌, IfOk};
ghost use Rattle.tsa_base.specs.declared.value.Value.TheVariants.{Int};
ghost use Rattle.tsa_core.specs.Bodies.{assigned, right_side, zero_term};
ghost use Rattle.tsa_core.specs.Meanings.{as_kind, loaded};
ghost use Rattle.tsa_core_rows.specs.Reading.{part_at};
ghost use Rattle.tsa_lower_code.specs.Codes.{height};
ghost use Rattle.tsa_lower_code.specs.PointCodes.{action_height};
ghost use Rattle.tsa_lower_points.specs.Actions.{action_of};
ghost use Rattle.tsa_lower_terms.specs.Sources.{parts_at, sense_at};

use crate::point::PointNode;
use tsa_base::NoMemory;
use tsa_lower_terms::Job;
use tsa_tree::expr::BinaryOp;
use tsa_tree::kind::Kind;
use tsa_types_row::Op;

impl PointNode<'_> {
    /// The first slot above all that the first part's value uses, or its place.
    fn reach_first(&self, slot: u32) -> Result<u32, NoMemory>
        ensures { IfOk result (λ top. top ≡ slot + height (sense_at self.now.source self.now.behind).term) }
    {
        Ok(self.source.reach(self.first(slot))?.top)
    }

    /// The same of its value where one of a kind is wanted, or of zero.
    fn reach_given(&self, kind: Kind, given: bool) -> Result<u32, NoMemory>
        ensures { IfOk result (λ top. top ≡ 1 + height
            (if given then as_kind kind (sense_at self.now.source self.now.behind) else zero_term kind)) }
    {
        if given {
            Ok(self.source.reach_as_kind(kind, self.first(1))?.top)
        } else {
            Ok(2)
        }
    }

    /// The same of the right side of an assignment.
    fn reach_right(&self, op: Option<BinaryOp>, kind: Kind) -> Result<u32, NoMemory>
        ensures { IfOk result (λ top. top ≡ 1 + height
            (right_side op kind (part_at 1 (parts_at self.now.source self.now.behind)).sense)) }
    {
        let at = self.source.pass(self.behind, 1);
        let job = Job { at, slot: 1 };
        Ok(match op {
            None => self.source.reach_as_kind(kind, job)?.top,
            Some(_) => self.source.reach(job)?.top,
        })
    }

    /// The same of an assignment, which uses slots for the old value and the place.
    fn reach_assignment(&self, op: Option<BinaryOp>) -> Result<u32, NoMemory>
        ensures { IfOk result (λ top. top ≡ action_height
            (assigned (sense_at self.now.source self.now.behind) op (part_at 1 (parts_at self.now.source self.now.behind)).sense)) }
    {
        let right = self.reach_right(op, self.source.type_at(self.behind).thing.kind)?;
        match self.local() {
            Some(_) => Ok(right.max(3)),
            None => Ok(right.max(self.reach_first(2)?.max(4))),
        }
    }

    /// The first slot above all that the code of what is done at the point uses.
    pub fn reach_action(&self) -> Result<u32, NoMemory>
        ensures { IfOk result (λ top. top ≡ action_height (action_of self.now)) }
    {
        match self.op {
            Op::Declare { has_value, .. } => self.reach_given(self.kind, has_value),
            Op::Evaluate | Op::Branch | Op::Test { given: true } => self.reach_first(1),
            Op::Set(op) => self.reach_assignment(op),
            Op::Give { given } => self.reach_given(self.result, given),
            Op::End | Op::Test { given: false } => Ok(2),
            _ => Ok(1),
        }
    }
}
