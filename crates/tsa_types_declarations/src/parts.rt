//! What the items of a list initialise: a struct's members, an array's elements (C11 6.7.9p17).
ghost use Rattle.std.specs.Prelude.{◌≡◌, option_map, slice_get, length};
ghost use Rattle.tsa_tree.specs.types.Initialisers.{elements, parts_of_kind, parts_of_thing, parts_of, or_no_parts};

use tsa_tree::kind::{Kind, ThingType};
use tsa_types_operators::single;
use tsa_types_scope::Scope;

/// How many members a kind has that is a struct.
fn kind_count(scope: &Scope<'_>, kind: Kind) -> Option<usize>
    ensures { result ≡ option_map length (parts_of_kind scope.now kind) }
{
    match kind {
        Kind::Structure(number) => Some(scope.members_len(number)),
        _ => None,
    }
}

/// How many elements or members a thing has.
#[tactic(auto, using(crate::proofs::PartLaws::parts))]
fn thing_count(scope: &Scope<'_>, thing: ThingType) -> Option<usize>
    ensures { result ≡ option_map length (parts_of_thing scope.now thing) }
{
    match thing.length {
        Some(length) => Some(length as usize),
        None => kind_count(scope, thing.kind),
    }
}

/// How many parts a list initialises; a cell has none to initialise.
pub fn parts_count(scope: &Scope<'_>, thing: Option<ThingType>) -> Option<usize>
    ensures { result ≡ option_map length (parts_of scope.now thing) }
{
    thing_count(scope, thing?)
}

/// The type of an element by its number, from 0.
#[tactic(auto, using(crate::proofs::PartLaws::parts))]
fn element_at(length: u32, element: ThingType, number: usize) -> Option<ThingType>
    ensures { result ≡ slice_get (elements length element) number }
{
    if number < length as usize {
        Some(element)
    } else {
        None
    }
}

/// The type of a member by its number, from 0, where the kind is a struct.
fn kind_part(scope: &Scope<'_>, kind: Kind, number: usize) -> Option<ThingType>
    ensures { result ≡ slice_get (or_no_parts (parts_of_kind scope.now kind)) number }
{
    match kind {
        Kind::Structure(structure) => scope.member_at(structure, number),
        _ => None,
    }
}

/// The type of an element or a member of a thing by its number, from 0.
fn thing_part(scope: &Scope<'_>, thing: ThingType, number: usize) -> Option<ThingType>
    ensures { result ≡ slice_get (or_no_parts (parts_of_thing scope.now thing)) number }
{
    match thing.length {
        Some(length) => element_at(length, single(thing.kind, thing.is_const), number),
        None => kind_part(scope, thing.kind, number),
    }
}

/// The type of a part by its number, from 0; what is no thing has none.
pub fn part_at(scope: &Scope<'_>, thing: Option<ThingType>, number: usize) -> Option<ThingType>
    ensures { result ≡ slice_get (or_no_parts (parts_of scope.now thing)) number }
{
    thing_part(scope, thing?, number)
}
