//! Views of functions.
ghost use Rattle.std.specs.Prelude.{◌≡◌, ◌<◌, ℕ, List, None, option_map, option_and_then, length, slice_get};
ghost use Rattle.tsa_core.specs.Programs.{Function, Program};
ghost use Rattle.tsa_rules_view.specs.Kinds.{kind_of};
ghost use Rattle.tsa_rules_roles.specs.Roles.{begin_in, role_in};
ghost use Rattle.tsa_rules.specs.Attributes.{declared_kinds, lock_kind_of, named as spec_named};
ghost use Rattle.tsa_rules.specs.Points.{attrs_at, point_at, points_of};
ghost use Rattle.tsa_rules.specs.Cases.{case_of, IsSmall};
ghost use Rattle.tsa_rules_view.specs.Views.{case_in, kept_from, kind_in, lock_in, number_called, text_of, IsViewOf};
ghost use Rattle.tsa_place_model.specs.Ways.{Way};

use crate::content::RuleView;
use crate::{LockKind, is_reentrant};
use tsa_place_model::Path;
use tsa_rules::{Case, Claim, Lock, Role};
use tsa_rules_table::{Marks, Numbers};
use tsa_tree::attr::AttrKind;
use tsa_tree::kind::Kind;

impl<'a> RuleView<'a> {
    /// How many paths there are.
    pub fn caps(&self) -> u32
        ensures { result ≡ length self.now.numbers }
    {
        self.numbers.len()
    }

    /// The path of a number.
    pub fn path(&self, cap: u32) -> Option<&Path>
        ensures { option_map (λ path. path.now) result ≡ slice_get self.now.numbers cap }
    {
        self.numbers.path(cap)
    }

    /// The text of the kind of the lock to which the path of a number leads. None exactly where there is no such path.
    pub fn kind(&self, cap: u32) -> Option<&'a [u8]>
        ensures { (u : Program) (f : Function) (paths : List Way) → IsViewOf u f paths self.now
            → option_map (λ text. text.now) result ≡ option_map (λ c. text_of (lock_kind_of u f c)) (slice_get paths cap) }
    {
        let _path = self.numbers.path(cap)?;
        match self.kind_of(cap) {
            Some(kind) => Some(kind.text),
            None => Some(&[]),
        }
    }

    /// The number of the function that a point calls. None exactly where there is no such point, or it calls nothing.
    pub fn callee(&self, point: u32) -> Option<u32>
        ensures { (u : Program) (f : Function) (paths : List Way) → IsViewOf u f paths self.now
            → result ≡ number_called (point_at f point) }
    {
        self.notes.callees.get(point as usize).copied().flatten()
    }

    /// The kind of the first attribute of the called function that names a path at a point. None exactly where there is no such point or
    /// path, or none names it there.
    #[tactic(auto, using(crate::proofs::Mentions::named_there, crate::proofs::Mentions::named_past))]
    pub fn named(&self, point: u32, cap: u32) -> Option<AttrKind>
        ensures { (u : Program) (f : Function) (paths : List Way) → IsViewOf u f paths self.now
            → result ≡ option_and_then (λ c. spec_named (attrs_at u f point) c) (slice_get paths cap) }
    {
        let _path = self.numbers.path(cap)?;
        if point < self.notes.marks.rows() {
            self.notes.marks.mark(point, cap).named
        } else {
            None
        }
    }

    /// The kind of the lock to which a path leads.
    fn kind_of(&self, cap: u32) -> Option<LockKind<'a>>
        ensures { option_map kind_of result ≡ kind_in self.now cap }
    {
        self.kinds.get(cap as usize).copied().flatten()
    }

    /// What the function says of the lock to which a path leads.
    pub fn lock(&self, cap: u32) -> Lock
        ensures { result ≡ lock_in self.now cap }
    {
        Lock {
            is_reentrant: is_reentrant(self.kind_of(cap)),
            claim: self.own.mark(0, cap).claim,
        }
    }

    /// What a test of a local finds of a path at a point: the try whose answer it has.
    fn kept(&self, point: u32, cap: u32) -> Option<Claim>
        ensures { result ≡ kept_from self.now cap (begin_in self.now.notes.roles point) }
    {
        let begun = self.notes.roles.kept_at(point)?;
        self.notes.marks.mark(begun, cap).tried
    }

    /// What a point does.
    #[tactic(auto, using(crate::proofs::SmallSets::small))]
    pub fn role(&self, point: u32) -> Role
        ensures is { result ≡ role_in self.now.notes.roles point }
        ensures small { IsSmall result }
    {
        self.notes.roles.role(point)
    }

    /// All of the paths, by their numbers.
    pub fn numbers(&self) -> &Numbers
        ensures { result.now ≡ self.now.numbers }
    {
        &self.numbers
    }

    /// The kinds of the locals that the body declares, in order.
    pub fn declared_kinds(&self) -> &[Kind]
        ensures by { result.now ≡ self.now.notes.kinds.items }
        ensures are { (u : Program) (f : Function) (paths : List Way) → IsViewOf u f paths self.now → result.now ≡ declared_kinds f.body }
    {
        &self.notes.kinds
    }

    /// What the points say of paths.
    pub fn marks(&self) -> &Marks
        ensures { result.now ≡ self.now.notes.marks }
    {
        &self.notes.marks
    }

    /// All that the rules go by for a path at a point.
    pub fn case(&self, point: u32, cap: u32) -> Case
        ensures by { result ≡ case_in self.now point cap }
        ensures small { IsSmall result.role }
        ensures is { (u : Program) (f : Function) (paths : List Way) (c : Way) → IsViewOf u f paths self.now → point < length (points_of f)
            → slice_get paths cap ≡ Some c → result ≡ case_of u f point c }
    {
        Case {
            lock: self.lock(cap),
            role: self.role(point),
            mark: self.notes.marks.mark(point, cap),
            kept: self.kept(point, cap),
        }
    }
}
