//! The code of the parts of a row, one behind the other as they stand there.
ghost use Rattle.std.specs.Prelude.{◌≡◌, ◌+◌, ◌≤◌, ◌<◌, ◌++◌, ◌∷◌, [], length, IfOk, OnOk};
ghost use Rattle.tsa_core.specs.Meanings.{is_cell as spec_is_cell};
ghost use Rattle.tsa_core_rows.specs.Reading.{behind_parts};
ghost use Rattle.tsa_lower_code.specs.Codes.{is_early as spec_is_early};
ghost use Rattle.tsa_lower_code.specs.declared.instr.Instr.TheVariants.{Join};
ghost use Rattle.tsa_lower_terms.specs.Codes.{base_code, beside_at, cell_code, compared_of, early_of, element_code, late_of, left_of, operands_code};
ghost use Rattle.tsa_lower_terms.specs.Codes.{is_comparison as spec_is_comparison, is_null_beside as spec_is_null_beside};
ghost use Rattle.tsa_lower_terms.specs.Sources.{parts_at, place_at, sense_at, value_at};

use crate::emit::{close, narrow, next, put, put_answer, put_known, put_nothing, put_null};
use crate::find::{Source, Spot};
use crate::head::{Head, is_cell};
use tsa_base::NoMemory;
use tsa_lower_code::Instr;
use tsa_tree::expr::BinaryOp;
use tsa_tree::kind::Kind;
use tsa_types_operators::{is_integer_kind, is_pointer_kind};

/// A part to be lowered: the node that it is looked for from, and the slot that it goes to.
#[derive(Clone, Copy)]
pub struct Job {
    pub at: usize,
    pub slot: u32,
}

/// Whether an operator stops early, and at which truth.
fn is_early(op: BinaryOp) -> Option<bool>
    ensures { result ≡ spec_is_early op }
{
    match op {
        BinaryOp::And => Some(false),
        BinaryOp::Or => Some(true),
        _ => None,
    }
}

/// Whether an operator compares pointers too.
pub(crate) fn is_comparison(op: BinaryOp) -> bool
    ensures { result ≡ spec_is_comparison op }
{
    matches!(op, BinaryOp::Equal | BinaryOp::Unequal)
}

/// Whether what has a kind counts as null beside another.
pub(crate) fn is_null_beside(other: Kind, kind: Kind) -> bool
    ensures { result ≡ spec_is_null_beside other kind }
{
    is_pointer_kind(other) && is_integer_kind(kind)
}

/// Two values are joined where the left one stands.
fn join(op: BinaryOp, left: u32, right: u32) -> Instr
    ensures { result ≡ Join left right left op }
{
    Instr::Join {
        left,
        right,
        to: left,
        op,
    }
}

impl Source<'_> {
    /// The code of a part's value, and where the row goes on. The recursion is as deep as the expression.
    #[cycle(lowering)]
    pub fn put_value(&self, out: &mut Vec<Instr>, job: Job) -> Result<usize, NoMemory>
        ensures code { OnOk result (out.new.items ≡ out.old.items ++ value_at self.now job.at job.slot) }
        ensures end { IfOk result (λ end. parts_at self.now end ≡ behind_parts 1 (parts_at self.now job.at)) }
        ensures ahead { IfOk result (λ end. job.at ≤ end) }
    {
        let Some(spot) = self.find(job.at, 0) else {
            put_null(out, job.slot)?;
            return Ok(job.at);
        };
        let slot = job.slot;
        let part = Job {
            at: spot.behind,
            slot,
        };
        match spot.head {
            Head::Constant(value) => {
                put(out, Instr::Constant { to: slot, value })?;
                Ok(part.at)
            }
            Head::Variable(number) => {
                put(out, Instr::Local { to: slot, number })?;
                Ok(part.at)
            }
            Head::Answer { args, .. } => {
                put_answer(out, self.is_answered, slot)?;
                Ok(self.pass(part.at, args))
            }
            Head::Address => self.put_place(out, part),
            Head::Prefixed(op) => {
                let end = self.put_value(out, part)?;
                put(out, Instr::Prefix { at: slot, op })?;
                Ok(end)
            }
            Head::Joined(op) => self.put_joined(out, op, part),
            Head::Global(_) | Head::Member { .. } | Head::Element | Head::Target => {
                self.put_cell(out, spot, slot)
            }
        }
    }

    /// The code of what stands at a place: a cell is read, and all else has no value.
    #[cycle(lowering)]
    fn put_cell(&self, out: &mut Vec<Instr>, spot: Spot, slot: u32) -> Result<usize, NoMemory>
        ensures code { OnOk result (out.new.items ≡ out.old.items ++ cell_code (spec_is_cell spot.thing.thing) (place_at self.now spot.at slot) slot) }
        ensures end { IfOk result (λ end. parts_at self.now end ≡ behind_parts 1 (parts_at self.now spot.at)) }
        ensures ahead { IfOk result (λ end. spot.at ≤ end) }
    {
        if is_cell(spot.thing.thing) {
            let end = self.put_place(out, Job { at: spot.at, slot })?;
            put(
                out,
                Instr::Load {
                    from: slot,
                    to: slot,
                },
            )?;
            Ok(end)
        } else {
            put_nothing(out)?;
            Ok(self.pass(spot.at, 1))
        }
    }

    /// The code of a part's place, and where the row goes on.
    #[cycle(lowering)]
    pub fn put_place(&self, out: &mut Vec<Instr>, job: Job) -> Result<usize, NoMemory>
        ensures code { OnOk result (out.new.items ≡ out.old.items ++ place_at self.now job.at job.slot) }
        ensures end { IfOk result (λ end. parts_at self.now end ≡ behind_parts 1 (parts_at self.now job.at)) }
        ensures ahead { IfOk result (λ end. job.at ≤ end) }
    {
        let Some(spot) = self.find(job.at, 0) else {
            put_nothing(out)?;
            return Ok(job.at);
        };
        let part = Job {
            at: spot.behind,
            slot: job.slot,
        };
        match spot.head {
            Head::Global(number) => {
                put_known(out, self.places.global(number), job.slot)?;
                Ok(part.at)
            }
            Head::Member { arrow, number } => {
                let end = self.put_base(out, arrow, part)?;
                let number = narrow(number)?;
                put(
                    out,
                    Instr::Member {
                        at: job.slot,
                        number,
                    },
                )?;
                Ok(end)
            }
            Head::Element => self.put_element(out, part),
            Head::Target => self.put_base(out, true, part),
            _ => {
                put_nothing(out)?;
                Ok(self.pass(spot.at, 1))
            }
        }
    }

    /// The code of a struct object's place: that of the part, or of what the part leads to.
    #[cycle(lowering)]
    fn put_base(&self, out: &mut Vec<Instr>, arrow: bool, job: Job) -> Result<usize, NoMemory>
        ensures code { OnOk result (out.new.items ≡ out.old.items ++ base_code self.now arrow (sense_at self.now job.at) job.slot) }
        ensures end { IfOk result (λ end. parts_at self.now end ≡ behind_parts 1 (parts_at self.now job.at)) }
        ensures ahead { IfOk result (λ end. job.at ≤ end) }
    {
        if arrow {
            let end = self.put_value(out, job)?;
            put(out, Instr::Follow { at: job.slot })?;
            Ok(end)
        } else {
            self.put_place(out, job)
        }
    }

    /// The code of an element's place, from its array and its index.
    #[cycle(lowering)]
    fn put_element(&self, out: &mut Vec<Instr>, job: Job) -> Result<usize, NoMemory>
        ensures code { OnOk result (out.new.items ≡ out.old.items ++ element_code self.now (parts_at self.now job.at) job.slot) }
        ensures end { IfOk result (λ end. parts_at self.now end ≡ behind_parts 2 (parts_at self.now job.at)) }
        ensures ahead { IfOk result (λ end. job.at ≤ end) }
    {
        let index = self.put_place(out, job)?;
        let slot = next(job.slot)?;
        let end = self.put_value(out, Job { at: index, slot })?;
        put(out, Instr::Element { at: job.slot })?;
        Ok(end)
    }

    /// The code of an operator on two parts.
    #[cycle(lowering)]
    fn put_joined(&self, out: &mut Vec<Instr>, op: BinaryOp, job: Job) -> Result<usize, NoMemory>
        ensures code { OnOk result (out.new.items ≡ out.old.items ++ operands_code self.now op (parts_at self.now job.at) job.slot) }
        ensures end { IfOk result (λ end. parts_at self.now end ≡ behind_parts 2 (parts_at self.now job.at)) }
        ensures ahead { IfOk result (λ end. job.at ≤ end) }
    {
        if is_comparison(op) {
            self.put_compared(out, op, job)
        } else {
            match is_early(op) {
                Some(on) => self.put_early(out, on, job),
                None => self.put_late(out, op, job),
            }
        }
    }

    /// The code of `&&` and `||`, which pass their right side where the left one tells the value.
    #[cycle(lowering)]
    fn put_early(&self, out: &mut Vec<Instr>, on: bool, job: Job) -> Result<usize, NoMemory>
        ensures code { OnOk result (out.new.items ≡ out.old.items ++ early_of self.now on (parts_at self.now job.at) job.slot) }
        ensures end { IfOk result (λ end. parts_at self.now end ≡ behind_parts 2 (parts_at self.now job.at)) }
        ensures ahead { IfOk result (λ end. job.at ≤ end) }
    {
        let right = self.put_value(out, job)?;
        let skip = out.len();
        put(
            out,
            Instr::Skip {
                at: job.slot,
                on,
                by: 0,
            },
        )?;
        let end = self.put_value(
            out,
            Job {
                at: right,
                slot: job.slot,
            },
        )?;
        close(out, skip, job.slot, on)?;
        Ok(end)
    }

    /// The code of an operator that takes both sides.
    #[cycle(lowering)]
    fn put_late(&self, out: &mut Vec<Instr>, op: BinaryOp, job: Job) -> Result<usize, NoMemory>
        ensures code { OnOk result (out.new.items ≡ out.old.items ++ late_of self.now op (parts_at self.now job.at) job.slot) }
        ensures end { IfOk result (λ end. parts_at self.now end ≡ behind_parts 2 (parts_at self.now job.at)) }
        ensures ahead { IfOk result (λ end. job.at ≤ end) }
    {
        let at = self.put_value(out, job)?;
        let slot = next(job.slot)?;
        let end = self.put_value(out, Job { at, slot })?;
        put(out, join(op, job.slot, slot))?;
        Ok(end)
    }

    /// The code of `==` and `!=`, where the number 0 is null beside a pointer.
    #[cycle(lowering)]
    fn put_compared(&self, out: &mut Vec<Instr>, op: BinaryOp, job: Job) -> Result<usize, NoMemory>
        ensures code { OnOk result (out.new.items ≡ out.old.items ++ compared_of self.now op (parts_at self.now job.at) job.slot) }
        ensures end { IfOk result (λ end. parts_at self.now end ≡ behind_parts 2 (parts_at self.now job.at)) }
        ensures ahead { IfOk result (λ end. job.at ≤ end) }
    {
        let at = self.put_left(out, job)?;
        let slot = next(job.slot)?;
        let end = self.put_beside(out, self.type_at(job.at).thing.kind, Job { at, slot })?;
        put(out, join(op, job.slot, slot))?;
        Ok(end)
    }

    /// The code of the left side of a comparison. What the right side is, is known behind it: no part is gone through twice.
    #[cycle(lowering)]
    fn put_left(&self, out: &mut Vec<Instr>, job: Job) -> Result<usize, NoMemory>
        ensures code { OnOk result (out.new.items ≡ out.old.items ++ left_of self.now (parts_at self.now job.at) job.slot) }
        ensures end { IfOk result (λ end. parts_at self.now end ≡ behind_parts 1 (parts_at self.now job.at)) }
        ensures ahead { IfOk result (λ end. job.at ≤ end) }
    {
        let start = out.len();
        let end = self.put_value(out, job)?;
        let left = self.type_at(job.at).thing.kind;
        if is_null_beside(self.type_at(end).thing.kind, left) {
            out.truncate(start);
            put_null(out, job.slot)?;
        }
        Ok(end)
    }

    /// The code of a part's value beside another of a kind: an integer is null beside a pointer.
    #[cycle(lowering)]
    pub fn put_beside(&self, out: &mut Vec<Instr>, other: Kind, job: Job) -> Result<usize, NoMemory>
        ensures code { OnOk result (out.new.items ≡ out.old.items ++ beside_at self.now other job.at job.slot) }
        ensures end { IfOk result (λ end. parts_at self.now end ≡ behind_parts 1 (parts_at self.now job.at)) }
        ensures ahead { IfOk result (λ end. job.at ≤ end) }
    {
        if is_null_beside(other, self.type_at(job.at).thing.kind) {
            put_null(out, job.slot)?;
            Ok(self.pass(job.at, 1))
        } else {
            self.put_value(out, job)
        }
    }
}
