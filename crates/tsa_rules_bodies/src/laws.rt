//! Laws of the bodies of functions by their numbers.
ghost use Rattle.tsa_rules_bodies.specs.Laws.{SitesAreOfTheProgram};

/// The body of a function by its number, with what is known there, is that of the core program's function; one without a body is nowhere.
pub fn sites_are_of_the_program()
    ensures { SitesAreOfTheProgram }
{}
