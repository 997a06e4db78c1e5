//! Laws of the profile.
ghost use Rattle.tsa_profile.specs.Attributes.{AttributesAreThoseOfTheCore};
ghost use Rattle.tsa_profile.specs.Examples.{ProfilesAreAsWritten};
ghost use Rattle.tsa_profile.specs.Starts.{StartValuesHaveTheirKinds, StartsAreWellTyped};
ghost use Rattle.tsa_profile.specs.Running.{ProfilesAreRunnable};
ghost use Rattle.tsa_profile.specs.Tables.{PathsAreThoseOfTheCore};

/// Units are in the profile, or are refused where it is written beside them.
pub fn profiles_are_as_written()
    ensures { ProfilesAreAsWritten }
{}

/// In a typed unit each cell holds at the start a number in the range of its type, or a pointer that is null or points to an object of its
/// struct, which is const only where the pointer's type says so.
pub fn start_values_have_their_kinds()
    ensures { StartValuesHaveTheirKinds }
{}

/// In a typed unit that is in the profile the store at the start is well-typed: there no pointer points to what is guarded.
pub fn starts_are_well_typed()
    ensures { StartsAreWellTyped }
{}

/// A typed unit in the profile is one that the machine runs.
pub fn profiles_are_runnable()
    ensures { ProfilesAreRunnable }
{}

/// Behind the items of a unit the attributes that are known are those of the functions of its core program, by their numbers.
pub fn attributes_are_those_of_the_core()
    ensures { AttributesAreThoseOfTheCore }
{}

/// Behind the items of a typed unit the paths of its bodies, by the numbers of their functions, are those of the functions of its core
/// program.
pub fn paths_are_those_of_the_core()
    ensures { PathsAreThoseOfTheCore }
{}
