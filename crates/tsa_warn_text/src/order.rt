//! Numbers in the order in which their paths are told.
ghost use Rattle.std.specs.Prelude.{◌≡◌, IfOk};
ghost use Rattle.std.specs.List.{range_with_len};
ghost use Rattle.std.specs.List.Sorted.{IsPermutation, IsSorted};
ghost use Rattle.tsa_warn_text.specs.Ranks.{told_by, told_cmp};

use crate::text::PathText;
use std::alloc::Global;
use std::cmp::Ordering;
use tsa_base::NoMemory;

/// The text of the path of a number.
pub fn text_at(texts: &[PathText], number: u32) -> &[u8]
    ensures { result.now ≡ (told_by texts.now number).text }
{
    match texts.get(number as usize) {
        Some(path) => path.text(),
        None => b"",
    }
}

/// The locals that the path of a number mentions.
fn locals_at(texts: &[PathText], number: u32) -> &[u32]
    ensures { result.now ≡ (told_by texts.now number).locals }
{
    match texts.get(number as usize) {
        Some(path) => path.locals(),
        None => &[],
    }
}

/// How two numbers compare: by the texts of their paths, then by the locals that those mention, and last as numbers.
fn compare(texts: &[PathText], first: u32, second: u32) -> Ordering
    ensures { result ≡ told_cmp texts.now first second }
{
    text_at(texts, first)
        .cmp(text_at(texts, second))
        .then_with(|| locals_at(texts, first).cmp(locals_at(texts, second)))
        .then(first.cmp(&second))
}

/// All numbers below a count.
fn numbers_below(alloc: Global, count: u32) -> Result<Vec<u32>, NoMemory>
    ensures { IfOk result (λ numbers. numbers.items ≡ range_with_len 0 count) }
{
    Ok((0..count).collect(alloc)?)
}

/// Brings numbers into the order in which their paths are told.
fn sort(texts: &[PathText], numbers: &mut Vec<u32>)
    ensures kept { IsPermutation numbers.old.items numbers.new.items }
    ensures ordered { IsSorted (told_cmp texts.now) numbers.new.items }
{
    numbers.sort_unstable_by(|first, second| compare(texts, *first, *second));
}

/// All numbers below a count in the order in which their paths are told.
pub fn order_of(alloc: Global, texts: &[PathText], count: u32) -> Result<Vec<u32>, NoMemory>
    ensures kept { IfOk result (λ order. IsPermutation (range_with_len 0 count) order.items) }
    ensures ordered { IfOk result (λ order. IsSorted (told_cmp texts.now) order.items) }
{
    let mut order = numbers_below(alloc, count)?;
    sort(texts, &mut order);
    Ok(order)
}
