//! The ranks of numbers: their places in an order.
ghost use Rattle.std.specs.Prelude.{◌≡◌, length, slice_get, slice_set, unwrap_or, IfOk};
ghost use Rattle.tsa_warn_text.specs.Ranks.{RanksArePlaces};

use std::alloc::Global;
use tsa_base::NoMemory;

/// Puts a rank at a number, where that is among them.
#[tactic(auto, using(std::proofs::lemmas::List::set_past))]
fn put(ranks: &mut Vec<u32>, number: u32, rank: u32)
    ensures { ranks.new.items ≡ slice_set ranks.old.items number rank }
{
    let at = number as usize;
    if at < ranks.len() {
        ranks[at] = rank;
    }
}

/// The places of numbers in an order of so many.
pub fn ranks_of(alloc: Global, order: &[u32], count: u32) -> Result<Vec<u32>, NoMemory>
    requires { count ≡ length order.now }
    ensures { IfOk result (λ ranks. RanksArePlaces order.now ranks.items) }
{
    let mut ranks = order.to_vec(alloc)?;
    'each: for rank in 0..count {
        put(&mut ranks, order[rank as usize], rank);
    }
    Ok(ranks)
}

/// The rank at a number; 0 where there is none.
pub fn rank_at(ranks: &[u32], number: u32) -> u32
    ensures { result ≡ unwrap_or (slice_get ranks.now number) 0 }
{
    ranks.get(number as usize).copied().unwrap_or(0)
}
