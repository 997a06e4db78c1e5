//! Laws of the order in which rules that fail are told.
ghost use Rattle.tsa_warn_function.specs.Orders.{NotBothAreFirst, OneIsFirst, PrecedingIsTransitive};

/// Of two different rules that fail exactly one is told before the other, and one that is told before another is told before all that
/// follow it.
pub fn failures_are_told_in_one_order()
    ensures one { OneIsFirst }
    ensures not_both { NotBothAreFirst }
    ensures transitive { PrecedingIsTransitive }
{}
