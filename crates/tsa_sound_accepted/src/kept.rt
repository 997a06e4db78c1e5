//! The laws of kept rows, and of what is set.
ghost use Rattle.tsa_sound_accepted.specs.kept.Laws.{LocalsAreSetApart, PathsAreNamedOnce, RowsAreKeptWhereNoRuleFails, RowsArePossibleWhereNoRuleFails};
ghost use Rattle.tsa_sound_accepted.specs.kept.Laws.{UnitsKeepTheirRows};

/// Where no rule fails, the rows that are read off walks are kept: each point that edges reach has one status of each path, which is one
/// that the path may have.
pub fn rows_are_kept_where_no_rule_fails()
    ensures kept { RowsAreKeptWhereNoRuleFails }
    ensures possible { RowsArePossibleWhereNoRuleFails }
{}

/// The paths of a function stand once each among those that it names, with all that its attributes and those of what it calls name.
pub fn paths_are_named_once()
    ensures { PathsAreNamedOnce }
{}

/// Each function with a body of a unit in which no rule fails keeps rows of its paths.
pub fn units_keep_their_rows()
    ensures { UnitsKeepTheirRows }
{}

/// In a typed unit in the profile no path mentions a local that is assigned, no attribute one that is set, and a try variable is set at its
/// own declaration alone.
pub fn locals_are_set_apart()
    ensures { LocalsAreSetApart }
{}
