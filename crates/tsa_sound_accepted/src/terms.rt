//! The laws of the terms of accepted units.
ghost use Rattle.tsa_sound_accepted.specs.terms.CallTerms.{CallsHaveTheirTerms};
ghost use Rattle.tsa_sound_accepted.specs.terms.Laws.{GuardsAgree};
ghost use Rattle.tsa_sound_accepted.specs.terms.Units.{ArgumentsHaveTheirPaths, PointsHaveTheirTerms};

/// Where all guards of what an expression stands for have paths, these are the guards of its term.
pub fn guards_of_terms_are_those_of_expressions()
    ensures { GuardsAgree }
{}

/// At each point of each function with a body of a unit that is typed and in the profile, the terms are as the laws of turns ask: they have
/// their kinds, what they load and set is told among the uses of the point with guards that are paths of the function, and a point that
/// calls goes on.
pub fn points_have_their_terms()
    ensures { PointsHaveTheirTerms }
{}

/// The paths that are handed on with the arguments of a call of such a function are those of the arguments' terms: a local that never
/// changes, a constant that an array may have for an index, or where a pointer points.
pub fn arguments_have_their_paths()
    ensures { ArgumentsHaveTheirPaths }
{}

/// At each point that calls in such a function something is done with the answer, a test looks at nothing else, and a pointer that is
/// handed on points along the path that is handed on with it.
pub fn calls_have_their_terms()
    ensures { CallsHaveTheirTerms }
{}
