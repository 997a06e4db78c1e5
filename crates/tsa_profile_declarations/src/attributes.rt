//! Attributes of members, of globals and of functions.
ghost use Rattle.std.specs.Prelude.{◌≡◌, ◌∷◌, ◌&&◌, [], None, IfOk};
ghost use Rattle.tsa_profile_declarations.specs.Declarations.{attribute_arguments, attribute_premises, guard_premises, ways_behind};
ghost use Rattle.tsa_profile_declarations.specs.Tries.{misfits_beside, tries_among, with_attribute};
ghost use Rattle.tsa_tree.specs.attributes.Syntax.{attr_shape, attr_shapes};
ghost use Rattle.tsa_profile_accesses.specs.declared.premise.ProfileCode.TheVariants.{PF7};
ghost use Rattle.tsa_profile_accesses.specs.Premises.{first, premise};
ghost use Rattle.tsa_profile_accesses.specs.NodeAnswers.{view_of};

use crate::argument::arguments;
use crate::tries::Tries;
use std::alloc::Global;
use tsa_base::NoMemory;
use tsa_path::PathSet;
use tsa_profile_accesses::{Body, Failure, ProfileCode};
use tsa_tree::attr::Attr;
use tsa_tree::kind::Kind;

/// What fails first at an attribute of a member or of a global.
fn guard_failure(body: Body<'_, '_>, attr: &Attr<'_>) -> Result<Option<Failure>, NoMemory>
    ensures { IfOk result (λ failure. failure
        ≡ first (attribute_arguments (view_of body.entry) attr.now.kind [] (attr_shape attr.now).args)) }
{
    let mut paths = PathSet::new(body.sight.scope.allocator());
    arguments(body, attr.kind, &mut paths, attr.args)
}

/// What fails first at the attributes of a member or of a global.
pub fn guards_failure(body: Body<'_, '_>, attrs: &[Attr<'_>]) -> Result<Option<Failure>, NoMemory>
    ensures { IfOk result (λ failure. failure ≡ first (guard_premises (view_of body.entry) (attr_shapes attrs.now))) }
{
    'each: for attr in attrs {
        if let Some(failure) = guard_failure(body, attr)? {
            return Ok(Some(failure));
        }
    }
    Ok(None)
}

/// What the attributes of a function are asked beside: what they see, whether the function has a body, and the kind of what it gives.
#[derive(Clone, Copy)]
struct Within<'w, 'a> {
    body: Body<'w, 'a>,
    has_body: bool,
    gives: Kind,
}

/// What the attributes before one name: results of tries, and paths.
struct Before {
    tries: Tries,
    paths: PathSet,
}

impl Drop for Before {
    /// Lets its parts go, in one call for all who let one go.
    fn drop(self) {
        let Before { tries: _, paths: _ } = self;
    }
}

impl Before {
    /// Nothing. No memory is taken.
    fn new(alloc: Global) -> Before
        ensures tries { result.tries ≡ tries_among [] }
        ensures paths { result.paths ≡ [] }
    {
        Before {
            tries: Tries::none(),
            paths: PathSet::new(alloc),
        }
    }

    /// What fails first at an attribute of a function; where nothing does, what it names is named before those behind it.
    fn attribute(
        &mut self,
        within: Within<'_, '_>,
        attr: &Attr<'_>,
    ) -> Result<Option<Failure>, NoMemory>
        ensures failure { IfOk result (λ failure. failure
            ≡ first (premise PF7 attr.now.span
            (within.entry.has_body && misfits_beside within.entry.gives self.old.tries (attr_shape attr.now)) ∷ attribute_arguments
            (view_of within.entry.body) attr.now.kind self.old.paths (attr_shape attr.now).args)) }
        ensures tries { IfOk result (λ failure. failure ≡ None → self.new.tries ≡ with_attribute self.old.tries (attr_shape attr.now)) }
        ensures paths { IfOk result (λ failure. failure ≡ None
            → self.new.paths ≡ ways_behind (view_of within.entry.body) attr.now.kind self.old.paths (attr_shape attr.now).args) }
    {
        if within.misfits(self.tries, attr) {
            return Ok(Some(Failure {
                code: ProfileCode::PF7,
                span: attr.span,
            }));
        }
        self.tries = self.tries.with(attr);
        arguments(within.body, attr.kind, &mut self.paths, attr.args)
    }
}

impl<'w, 'a> Within<'w, 'a> {
    /// Whether an attribute beside earlier tries doesn't fit the function's body, where it has one.
    fn misfits(self, tries: Tries, attr: &Attr<'_>) -> bool
        ensures { result ≡ (self.entry.has_body && misfits_beside self.entry.gives tries (attr_shape attr.now)) }
    {
        self.has_body && tries.misfits(self.gives, attr)
    }

    /// What fails first at the attributes of the function.
    fn failure(self, attrs: &[Attr<'_>]) -> Result<Option<Failure>, NoMemory>
        ensures { IfOk result (λ failure. failure
            ≡ first (attribute_premises (view_of self.entry.body) self.entry.has_body self.entry.gives [] [] (attr_shapes attrs.now))) }
    {
        let mut before = Before::new(self.body.sight.scope.allocator());
        'each: for attr in attrs {
            if let Some(failure) = before.attribute(self, attr)? {
                return Ok(Some(failure));
            }
        }
        Ok(None)
    }
}

/// What fails first at the attributes of a function that gives values of a kind.
pub fn attributes_failure(
    body: Body<'_, '_>,
    has_body: bool,
    gives: Kind,
    attrs: &[Attr<'_>],
) -> Result<Option<Failure>, NoMemory>
    ensures { IfOk result (λ failure. failure
        ≡ first (attribute_premises (view_of body.entry) has_body gives [] [] (attr_shapes attrs.now))) }
{
    let within = Within {
        body,
        has_body,
        gives,
    };
    within.failure(attrs)
}
