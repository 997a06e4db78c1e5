//! Laws of the order in which paths are told.
ghost use Rattle.tsa_warn_text.specs.Orders.{NotBothAreToldFirst, OneIsToldFirst, OrderIsTransitive, RanksFollowTheOrder};

/// Of two different numbers of paths exactly one is told before the other, and one that is told before another is told before all that
/// follow it.
pub fn paths_are_told_in_one_order()
    ensures one { OneIsToldFirst }
    ensures not_both { NotBothAreToldFirst }
    ensures transitive { OrderIsTransitive }
{}

/// The rank of a number is below that of another just where its path is told before.
pub fn ranks_follow_the_order()
    ensures { RanksFollowTheOrder }
{}
