//! Places: the cells and the struct objects of globals (C11 6.2.4p1).

use tsa_base::Value;
use tsa_tree::kind::Kind;

/// What declares a place: a global by its number, or a member by its number in the struct object at a place.
#[derive(Clone, Copy, Debug, PartialEq, Eq)]
pub enum Holder {
    Global(u32),
    Member { owner: u32, number: u32 },
}

/// A place: what declares it, its index where it is an array's element, what it is, whether it is `const` by itself or by what it lies in,
/// whether it or what it lies in has a guard, and of a cell the value at the start.
#[derive(Clone, Copy, Debug, PartialEq, Eq)]
pub struct Placed {
    pub holder: Holder,
    pub index: Option<u32>,
    pub kind: Kind,
    pub is_const: bool,
    pub is_guarded: bool,
    pub initial: Value,
}

/// What a place is.
#[derive(Clone, Copy, Debug, PartialEq, Eq)]
pub enum PlaceKind {
    Cell,
    Structure,
}

/// What a guard of a place is: the lock at a place, or nothing, where it has no path, or its path leads along null or past an array's end.
#[derive(Clone, Copy, Debug, PartialEq, Eq)]
pub enum Guard {
    Lock(u32),
    Nothing,
}

impl Holder {
    ghost use Rattle.std.specs.Prelude.{◌≡◌};
    ghost use Rattle.tsa_place_model.specs.Calls.{owner_of};

    /// The struct object whose member declares it, where one does.
    pub fn owner(self) -> Option<u32>
        ensures { result ≡ owner_of self }
    {
        match self {
            Holder::Global(_) => None,
            Holder::Member { owner, .. } => Some(owner),
        }
    }
}
