//! The paths of lock expressions, where `&` and `*` cancel and a pointer is followed once more, and those of a call's arguments.
ghost use Rattle.std.specs.Prelude.{◌≡◌, option_map, IfOk};
ghost use Rattle.tsa_place_model.specs.LockPaths.{is_address as spec_is_address, is_pointer as spec_is_pointer};
ghost use Rattle.tsa_tree.specs.expressions.Shapes.{shape};

use crate::leads::{Led, in_range, meant};
use tsa_base::{NoMemory, PLACE_LIMIT};
use tsa_place_model::{Path, PathStep, Root};
use tsa_tree::expr::{Expr, ExprKind, UnaryOp};
use tsa_tree::kind::{Kind, ThingType};
use tsa_tree::meaning::{Entry, Meaning};
use tsa_tree::number::Number;
use tsa_types_expressions::{Scope, View, is_integer_kind};

/// Whether a kind is that of a pointer to a struct.
pub fn is_pointer(kind: Kind) -> bool
    ensures { result ≡ spec_is_pointer kind }
{
    matches!(kind, Kind::Pointer { .. })
}

/// Whether an expression is `&` of something.
fn is_address(expr: &Expr<'_>) -> bool
    ensures { result ≡ spec_is_address (shape expr.now) }
{
    matches!(
        &expr.kind,
        ExprKind::Unary {
            op: UnaryOp::Address,
            ..
        }
    )
}

/// The path alone, where there is one.
fn path_of(led: Option<Led>) -> Option<Path>
    ensures { result ≡ option_map (λ led. led.way) led }
{
    led.map(Led::into_path)
}

/// What a lock expression sees: what is known where it stands, and which locals never change after their initialisation, by their numbers.
#[derive(Clone, Copy)]
pub struct Sight<'w, 'a> {
    pub scope: &'w Scope<'a>,
    pub stable: &'w [bool],
}

impl<'w, 'a> Sight<'w, 'a> {
    ghost use Rattle.std.specs.Prelude.{None, true, option_and_then};
    ghost use Rattle.tsa_tree.specs.types.Scopes.{known_in, context_of};
    ghost use Rattle.tsa_tree.specs.types.DeclaredTypes.{value_in};
    ghost use Rattle.tsa_place_model.specs.LockPaths.{stable_in, to_member, name_way, member_step as spec_member_step};
    ghost use Rattle.tsa_place_model.specs.LockPaths.{element_step as spec_element_step, index_step as spec_index_step};
    ghost use Rattle.tsa_place_model.specs.LockPaths.{variable as spec_variable, or_variable, leads as spec_leads, lock_way};
    ghost use Rattle.tsa_place_model.specs.Ways.{from};
    ghost use Rattle.tsa_place_model.specs.Arguments.{constant_argument as spec_constant_argument, local_argument as spec_local_argument};
    ghost use Rattle.tsa_place_model.specs.Arguments.{or_local, index_argument as spec_index_argument, argument_way};

    /// Whether a local never changes.
    fn is_stable(self, local: u32) -> bool
        ensures { result ≡ stable_in self.entry.stable.now local }
    {
        self.stable.get(local as usize).copied().unwrap_or(false)
    }

    /// A root alone, with the type that was declared there.
    fn root(self, root: Root) -> Path
        ensures { result ≡ from root }
    {
        Path::new(self.scope.allocator(), root)
    }

    /// On to a member of a number.
    fn member(self, path: Path, member: Option<(usize, ThingType)>) -> Result<Option<Led>, NoMemory>
        ensures { IfOk result (λ led. led ≡ to_member path member) }
    {
        let Some((number, thing)) = member else {
            return Ok(None);
        };
        let number = u32::try_from(number).ok().ok_or(NoMemory)?;
        Ok(Some(Led::new(path.onward(PathStep::Field(number))?, thing)))
    }

    /// On to a member by its name, where the thing is a struct object.
    fn member_step(self, led: Led, name: &[u8]) -> Result<Option<Led>, NoMemory>
        ensures { IfOk result (λ after. after ≡ spec_member_step self.entry.scope.now name.now led) }
    {
        match (led.thing().length, led.thing().kind) {
            (None, Kind::Structure(number)) => {
                let member = self.scope.find_member(number, name);
                self.member(led.into_path(), member)
            }
            _ => Ok(None),
        }
    }

    /// The step by a local that is a number and never changes.
    fn variable(self, entry: Option<Entry>) -> Option<PathStep>
        ensures { result ≡ spec_variable (stable_in self.entry.stable.now) entry }
    {
        let entry = entry?;
        match entry.meaning {
            Meaning::Local(number) => {
                if self.is_stable(number) && is_integer_kind(entry.thing.kind) {
                    Some(PathStep::Variable(number))
                } else {
                    None
                }
            }
            _ => None,
        }
    }

    /// What an index is worth that is a constant.
    pub fn value_at(self, index: &Expr<'_>) -> Result<Option<Number>, NoMemory>
        ensures { IfOk result (λ value. value ≡ value_in (context_of self.entry.scope.now) (shape index.now)) }
    {
        let view = View {
            scope: self.scope,
            function: 0,
        };
        view.value(index)
    }

    /// The step by an index that is such a local.
    fn by_name(self, index: &Expr<'_>) -> Option<PathStep>
        ensures { result ≡ or_variable (stable_in self.entry.stable.now) self.entry.scope.now (shape index.now) None }
    {
        match &index.kind {
            ExprKind::Named(name) => self.variable(self.scope.known(name.text)),
            _ => None,
        }
    }

    /// The step by an index in an array of a length: a constant in range, or such a local.
    fn index_step(self, length: u32, index: &Expr<'_>) -> Result<Option<PathStep>, NoMemory>
        ensures { IfOk result (λ step. step ≡ spec_index_step (stable_in self.entry.stable.now) self.entry.scope.now length
            (shape index.now)) }
    {
        let value = self.value_at(index)?;
        match in_range(length, value) {
            Some(step) => Ok(Some(step)),
            None => Ok(self.by_name(index)),
        }
    }

    /// On to an element, where the thing is an array.
    fn element_step(self, led: Led, index: &Expr<'_>) -> Result<Option<Led>, NoMemory>
        ensures { IfOk result (λ after. after ≡ spec_element_step (stable_in self.entry.stable.now) self.entry.scope.now (shape index.now)
            led) }
    {
        let Some(length) = led.thing().length else {
            return Ok(None);
        };
        match self.index_step(length, index)? {
            Some(step) => Ok(Some(led.element(step)?)),
            None => Ok(None),
        }
    }

    /// What a name leads to: a global, a local that never changes, or a member of the struct object that has the guard.
    pub fn name(self, name: &[u8]) -> Result<Option<Led>, NoMemory>
        ensures { IfOk result (λ led. led ≡ option_and_then (name_way (stable_in self.entry.stable.now) self.entry.scope.now name.now)
            (known_in self.entry.scope.now name.now)) }
    {
        self.known_name(name, self.scope.known(name))
    }

    /// The same of a name that was looked up.
    pub fn known_name(self, name: &[u8], entry: Option<Entry>) -> Result<Option<Led>, NoMemory>
        ensures { IfOk result (λ led. led ≡ option_and_then (name_way (stable_in self.entry.stable.now) self.entry.scope.now name.now)
            entry) }
    {
        let Some(entry) = entry else {
            return Ok(None);
        };
        match entry.meaning {
            Meaning::Global(number) => {
                Ok(Some(Led::new(self.root(Root::Global(number)), entry.thing)))
            }
            Meaning::Local(number) if self.is_stable(number) => {
                Ok(Some(Led::stable(self.root(Root::Local(number)), entry.thing)))
            }
            Meaning::Owned => self.member(self.root(Root::Owner), self.scope.find_owned(name)),
            _ => Ok(None),
        }
    }

    /// On to a member of what was led to.
    pub fn member_of(self, led: Option<Led>, name: &[u8]) -> Result<Option<Led>, NoMemory>
        ensures { IfOk result (λ after. after ≡ option_and_then (spec_member_step self.entry.scope.now name.now) led) }
    {
        match led {
            Some(led) => self.member_step(led, name),
            None => Ok(None),
        }
    }

    /// On to an element of what was led to.
    pub fn element_of(self, led: Option<Led>, index: &Expr<'_>) -> Result<Option<Led>, NoMemory>
        ensures { IfOk result (λ after. after
            ≡ option_and_then (spec_element_step (stable_in self.entry.stable.now) self.entry.scope.now (shape index.now)) led) }
    {
        match led {
            Some(led) => self.element_step(led, index),
            None => Ok(None),
        }
    }

    /// Where an expression leads as a place, or, where it stands as a pointer, to what that points. The recursion is as deep as the tree is
    /// high.
    #[cycle(leading)]
    #[tactic(auto, unfolding(tsa_place_model::specs::LockPaths::leads))]
    fn leads(self, as_pointer: bool, expr: &Expr<'_>) -> Result<Option<Led>, NoMemory>
        ensures { IfOk result (λ led. led ≡ spec_leads (stable_in self.entry.stable.now) self.entry.scope.now as_pointer (shape expr.now)) }
    {
        match &expr.kind {
            ExprKind::Named(name) => {
                let led = self.name(name.text)?;
                meant(as_pointer, led)
            }
            ExprKind::Field { base, name, arrow } => {
                let base = self.leads(*arrow, base)?;
                let member = self.member_of(base, name.text)?;
                meant(as_pointer, member)
            }
            ExprKind::Index { base, index } => {
                let base = self.leads(false, base)?;
                let element = self.element_of(base, index)?;
                meant(as_pointer, element)
            }
            ExprKind::Unary {
                op: UnaryOp::Address,
                inner,
            } if as_pointer => self.leads(false, inner),
            ExprKind::Unary {
                op: UnaryOp::Follow,
                inner,
            } if !as_pointer => self.leads(true, inner),
            _ => Ok(None),
        }
    }

    /// The path of the lock that an expression is or points to; none where it leads along a pointer that may change or to no place.
    pub fn lock_path(self, expr: &Expr<'_>) -> Result<Option<Path>, NoMemory>
        ensures { IfOk result (λ path. path ≡ lock_way (stable_in self.entry.stable.now) self.entry.scope.now (shape expr.now)) }
    {
        match self.leads(is_address(expr), expr)? {
            Some(led) => {
                let as_pointer = is_pointer(led.thing().kind);
                Ok(path_of(meant(as_pointer, Some(led))?))
            }
            None => Ok(None),
        }
    }

    /// The path of what a pointer's value is the address of; none where it leads along a pointer that may change or to no place.
    pub fn address_path(self, expr: &Expr<'_>) -> Result<Option<Path>, NoMemory>
        ensures { IfOk result (λ path. path
            ≡ option_map (λ led. led.way) (spec_leads (stable_in self.entry.stable.now) self.entry.scope.now true (shape expr.now))) }
    {
        Ok(path_of(self.leads(true, expr)?))
    }

    /// The path of an argument that is a constant, where an array may have it for an index.
    fn constant_argument(self, value: Option<Number>) -> Result<Option<Path>, NoMemory>
        ensures { IfOk result (λ path. path ≡ spec_constant_argument value) }
    {
        match in_range(PLACE_LIMIT as u32, value) {
            Some(step) => Ok(Some(self.root(Root::Owner).onward(step)?)),
            None => Ok(None),
        }
    }

    /// The path of a local that never changes.
    fn local_argument(self, entry: Option<Entry>) -> Option<Path>
        ensures { result ≡ spec_local_argument (stable_in self.entry.stable.now) entry }
    {
        match entry?.meaning {
            Meaning::Local(number) if self.is_stable(number) => Some(self.root(Root::Local(
                number,
            ))),
            _ => None,
        }
    }

    /// The path of an argument that is such a local.
    fn named_argument(self, expr: &Expr<'_>) -> Option<Path>
        ensures { result ≡ or_local (stable_in self.entry.stable.now) self.entry.scope.now (shape expr.now) None }
    {
        match &expr.kind {
            ExprKind::Named(name) => self.local_argument(self.scope.known(name.text)),
            _ => None,
        }
    }

    /// The path of an argument that is a number: a constant, or a local that never changes.
    fn index_argument(self, expr: &Expr<'_>) -> Result<Option<Path>, NoMemory>
        ensures { IfOk result (λ path. path ≡ spec_index_argument (stable_in self.entry.stable.now) self.entry.scope.now (shape expr.now)) }
    {
        let value = self.value_at(expr)?;
        match self.constant_argument(value)? {
            Some(path) => Ok(Some(path)),
            None => Ok(self.named_argument(expr)),
        }
    }

    /// The path of a call's argument for a parameter of a kind: of a pointer that of the place where it points, of a number a constant or a
    /// local that never changes; none of any other.
    pub fn argument_path(self, kind: Kind, expr: &Expr<'_>) -> Result<Option<Path>, NoMemory>
        ensures { IfOk result (λ path. path ≡ argument_way (stable_in self.entry.stable.now) self.entry.scope.now kind (shape expr.now)) }
    {
        if is_pointer(kind) {
            self.address_path(expr)
        } else {
            self.index_argument(expr)
        }
    }
}
