//! What the duties of the points of a function tell of it.
ghost use Rattle.tsa_rules_roles.specs.RoleLaws.{RolesAreOfTheProgram};

/// The roles of the points of a function, the count of its try variables, and where the try variables begin that its points test.
pub fn roles_are_of_the_program()
    ensures { RolesAreOfTheProgram }
{}
