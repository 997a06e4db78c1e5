//! Laws of what is known behind items and inside functions.
ghost use Rattle.tsa_core_environment.specs.Laws.{MembersComeOneByOne, MembersMakeTheStruct};

/// In a typed unit the members of a struct that are known one by one make the struct.
pub fn scopes_are_those_of_the_unit()
    ensures one { MembersComeOneByOne }
    ensures all { MembersMakeTheStruct }
{}
