//! How many slots the code of parts uses.
ghost use Rattle.std.specs.Prelude.{◌≡◌, ◌+◌, ◌≤◌, IfOk};
ghost use Rattle.tsa_core.specs.Meanings.{as_kind, beside};
ghost use Rattle.tsa_core_rows.specs.Reading.{behind_parts};
ghost use Rattle.tsa_lower_code.specs.Codes.{height};
ghost use Rattle.tsa_lower_terms.specs.Heights.{both_height, compared_height, null_or_top};
ghost use Rattle.tsa_lower_terms.specs.Sources.{parts_at, sense_at};

use crate::emit::next;
use crate::find::Source;
use crate::head::Head;
use crate::lower::{Job, is_comparison, is_null_beside};
use tsa_base::NoMemory;
use tsa_tree::kind::Kind;

/// How far parts reach: the first slot above all that their code uses, and the node behind them.
#[derive(Clone, Copy)]
pub struct Reach {
    pub top: u32,
    pub end: usize,
}

/// How far the null pointer reaches, or else how far another part does.
fn null_or(is_null: bool, slot: u32, top: u32) -> Result<u32, NoMemory>
    ensures { IfOk result (λ t. t ≡ null_or_top is_null slot top) }
{
    if is_null { next(slot) } else { Ok(top) }
}

impl Source<'_> {
    /// How far the code of a part reaches, of its value and of its place.
    #[cycle(reaching)]
    pub fn reach(&self, job: Job) -> Result<Reach, NoMemory>
        ensures top { IfOk result (λ r. r.top ≡ job.slot + height (sense_at self.now job.at).term) }
        ensures end { IfOk result (λ r. parts_at self.now r.end ≡ behind_parts 1 (parts_at self.now job.at)) }
        ensures ahead { IfOk result (λ r. job.at ≤ r.end) }
    {
        let above = next(job.slot)?;
        let Some(spot) = self.find(job.at, 0) else {
            return Ok(Reach {
                top: above,
                end: job.at,
            });
        };
        let part = Job {
            at: spot.behind,
            slot: job.slot,
        };
        match spot.head {
            Head::Constant(_) | Head::Variable(_) | Head::Global(_) | Head::Answer { .. } => {
                Ok(Reach {
                    top: above,
                    end: self.pass(spot.at, 1),
                })
            }
            Head::Element => self.reach_of_both(part),
            Head::Joined(op) => {
                if is_comparison(op) {
                    self.reach_of_compared(part)
                } else {
                    self.reach_of_both(part)
                }
            }
            Head::Member { .. } | Head::Target | Head::Address | Head::Prefixed(_) => {
                self.reach(part)
            }
        }
    }

    /// How far the code of two parts reaches, of which the second one goes to the next slot.
    #[cycle(reaching)]
    fn reach_of_both(&self, job: Job) -> Result<Reach, NoMemory>
        ensures top { IfOk result (λ r. r.top ≡ job.slot + both_height (parts_at self.now job.at)) }
        ensures end { IfOk result (λ r. parts_at self.now r.end ≡ behind_parts 2 (parts_at self.now job.at)) }
        ensures ahead { IfOk result (λ r. job.at ≤ r.end) }
    {
        let left = self.reach(job)?;
        let right = self.reach(Job {
            at: left.end,
            slot: next(job.slot)?,
        })?;
        Ok(Reach {
            top: left.top.max(right.top),
            end: right.end,
        })
    }

    /// The same of two parts that are compared, of which one may be null.
    #[cycle(reaching)]
    fn reach_of_compared(&self, job: Job) -> Result<Reach, NoMemory>
        ensures top { IfOk result (λ r. r.top ≡ job.slot + compared_height (parts_at self.now job.at)) }
        ensures end { IfOk result (λ r. parts_at self.now r.end ≡ behind_parts 2 (parts_at self.now job.at)) }
        ensures ahead { IfOk result (λ r. job.at ≤ r.end) }
    {
        let slot = next(job.slot)?;
        let left = self.reach(job)?;
        let right = self.reach(Job { at: left.end, slot })?;
        let left_kind = self.type_at(job.at).thing.kind;
        let right_kind = self.type_at(left.end).thing.kind;
        let left_top = null_or(is_null_beside(right_kind, left_kind), job.slot, left.top)?;
        let right_top = null_or(is_null_beside(left_kind, right_kind), slot, right.top)?;
        Ok(Reach {
            top: left_top.max(right_top),
            end: right.end,
        })
    }
    /// How far the code of a part reaches beside another of a kind.
    pub fn reach_beside(&self, other: Kind, job: Job) -> Result<Reach, NoMemory>
        ensures top { IfOk result (λ r. r.top ≡ job.slot + height (beside other (sense_at self.now job.at))) }
        ensures end { IfOk result (λ r. parts_at self.now r.end ≡ behind_parts 1 (parts_at self.now job.at)) }
    {
        let reach = self.reach(job)?;
        let is_null = is_null_beside(other, self.type_at(job.at).thing.kind);
        let top = null_or(is_null, job.slot, reach.top)?;
        Ok(Reach {
            top,
            end: reach.end,
        })
    }

    /// How far the code of a part reaches where one of a kind is wanted.
    #[tactic(auto, using(crate::proofs::Heights::int_height, crate::proofs::Heights::unsigned_height))]
    pub fn reach_as_kind(&self, kind: Kind, job: Job) -> Result<Reach, NoMemory>
        ensures top { IfOk result (λ r. r.top ≡ job.slot + height (as_kind kind (sense_at self.now job.at))) }
        ensures end { IfOk result (λ r. parts_at self.now r.end ≡ behind_parts 1 (parts_at self.now job.at)) }
    {
        match kind {
            Kind::Int => self.reach(job),
            Kind::Unsigned => self.reach(job),
            _ => self.reach_beside(kind, job),
        }
    }
}
