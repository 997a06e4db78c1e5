//! Heads of functions (C11 6.7.6.3, 6.9.1) before their attributes: what a function without a body is, and its parameters.
ghost use Rattle.std.specs.Prelude.{◌≡◌, ◌&&◌, ◌||◌, ◌∷◌, not, is_some, length, nat_eq, IfOk};
ghost use Rattle.std.specs.List.{list_any};
ghost use Rattle.tsa_profile_declarations.specs.Declarations.{is_nothing as spec_is_nothing, param_premises};
ghost use Rattle.tsa_tree.specs.declarations.Shapes.{head_shape, param_shapes};
ghost use Rattle.tsa_tree.specs.types.Runnable.{is_environment as spec_is_environment, is_lock_function as spec_is_lock_function};
ghost use Rattle.tsa_profile_accesses.specs.declared.premise.ProfileCode.TheVariants.{PF6};
ghost use Rattle.tsa_profile_accesses.specs.Premises.{first, premise};

use crate::functions::{is_environment, is_lock_function, is_small};
use tsa_base::NoMemory;
use tsa_profile_accesses::{Failure, ProfileCode, declared_thing};
use tsa_tree::item::{FnTree, Param};
use tsa_types_scope::Scope;

/// What fails first at parameters: each is a number or a pointer.
fn params_failure(scope: &Scope<'_>, params: &[Param<'_>]) -> Result<Option<Failure>, NoMemory>
    ensures { IfOk result (λ failure. failure ≡ first (param_premises scope.now (param_shapes params.now))) }
{
    'each: for param in params {
        let thing = declared_thing(scope, &param.ctype)?;
        if !is_small(thing) {
            return Ok(Some(Failure {
                code: ProfileCode::PF4,
                span: param.span,
            }));
        }
    }
    Ok(None)
}

/// Whether a function is neither a lock function nor one of the environment.
fn is_neither(scope: &Scope<'_>, head: &FnTree<'_>) -> Result<bool, NoMemory>
    ensures { IfOk result (λ neither. neither
        ≡ not (spec_is_lock_function scope.now (head_shape head.now) || spec_is_environment scope.now (head_shape head.now))) }
{
    if is_lock_function(scope, head)? {
        return Ok(false);
    }
    Ok(!is_environment(scope, head)?)
}

/// A function's head: the functions whose bodies are said to stand elsewhere, by their numbers; what is known before the head; and whether
/// the function has a body anywhere.
#[derive(Clone, Copy)]
pub struct Heading<'w, 'a> {
    pub outside: &'w [u32],
    pub scope: &'w Scope<'a>,
    pub has_body: bool,
}

impl<'w, 'a> Heading<'w, 'a> {
    /// Whether the function that is declared next is said to have its body elsewhere.
    fn is_outside(self) -> Result<bool, NoMemory>
        ensures { IfOk result (λ is_outside. is_outside ≡ list_any (nat_eq (length self.entry.scope.now.functions)) self.entry.outside.now) }
    {
        let next = self.scope.next_function()?;
        Ok(self.outside.contains(&next))
    }

    /// Whether a function without a body is nothing that one may be.
    fn is_nothing(self, head: &FnTree<'_>) -> Result<bool, NoMemory>
        ensures { IfOk result (λ nothing. nothing ≡ spec_is_nothing self.entry.outside.now self.entry.scope.now (head_shape head.now)
            self.entry.has_body) }
    {
        if self.has_body || self.scope.declared(head.name.text).is_some() {
            return Ok(false);
        }
        if !is_neither(self.scope, head)? {
            return Ok(false);
        }
        Ok(!self.is_outside()?)
    }

    /// What fails first at a head before its attributes: that it stands for nothing, then its parameters.
    #[tactic(auto, using(crate::proofs::HeadParts::nothing_told, crate::proofs::HeadParts::param_told))]
    pub fn outer_failure(self, head: &FnTree<'_>) -> Result<Option<Failure>, NoMemory>
        ensures { IfOk result (λ failure. failure
            ≡ first (premise PF6 head.now.name.span
            (spec_is_nothing self.entry.outside.now self.entry.scope.now (head_shape head.now) self.entry.has_body) ∷ param_premises
            self.entry.scope.now (head_shape head.now).params)) }
    {
        if self.is_nothing(head)? {
            return Ok(Some(Failure {
                code: ProfileCode::PF6,
                span: head.name.span,
            }));
        }
        params_failure(self.scope, head.params)
    }
}
