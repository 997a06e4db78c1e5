//! The roles of the points of a body by their numbers.
ghost use Rattle.std.specs.Prelude.{◌≡◌, ◌+◌, ◌<◌, ◌++◌, ◌∷◌, ◌^◌, ℕ, [], None, length, IfOk, OnOk, OnErr};
ghost use Rattle.tsa_core.specs.Programs.{Program};
ghost use Rattle.tsa_rules_roles.specs.declared.duty.Duty.TheVariants as duty;
ghost use Rattle.tsa_rules_roles.specs.Roles.{asked_in, begin_in, begin_of as spec_begin_of, duty_in, duty_with, local_in, number_in};
ghost use Rattle.tsa_rules_roles.specs.Roles.{role_in, tries_in};
ghost use Rattle.tsa_rules_roles.specs.ProgramDuties.{AreRoles, Grows};
ghost use Rattle.tsa_rules_roles.specs.Variables.{variable_after, variable_in};

use crate::variables::{Variable, make_room, put, variable_of};
use crate::{Duty, Looked};
use std::alloc::Global;
use std::marker::Model;
use tsa_base::NoMemory;
use tsa_rules::{Asked, Role, Test};

/// What each point of a body does for the rules, and the numbers of its try variables. Contracts see what the points do, where of the
/// locals only try variables are declared.
pub struct Roles {
    duties: Vec<Duty>,
    variables: Vec<Option<Variable>>,
    tries: u32,
}

impl Drop for Roles {
    /// Lets its parts go, in one call for all who let one go.
    fn drop(self) {
        let Roles {
            duties: _,
            variables: _,
            tries: _,
        } = self;
    }
}

impl Model for Roles {
    ghost use Rattle.std.specs.Prelude.{List};
    ghost use Rattle.tsa_rules_roles.specs.declared.duty.Duty.{Duty};
    ghost use Rattle.tsa_rules_roles.specs.Variables.{AreKept};

    ghost Value = { List Duty };

    ghost view = { λ a. a.duties.items };

    ghost invariant = { λ a. AreKept a.duties.items a.variables.items a.tries };
}

/// What a point does, where a local counts only that begins with what a try gives.
fn duty_for(duty: Duty, is_try: bool) -> Duty
    ensures { result ≡ duty_with duty is_try }
{
    match duty {
        Duty::Declares(_) if !is_try => Duty::Passes,
        _ => duty,
    }
}

impl Roles {
    /// No points. No memory is taken.
    pub fn new(alloc: Global) -> Roles
        ensures none { result ≡ [] }
        ensures roles { (u : Program) (first : ℕ) → AreRoles u first [] result }
    {
        Roles {
            duties: Vec::new(alloc),
            variables: Vec::new(alloc),
            tries: 0,
        }
    }

    /// How many points there are.
    pub fn points(&self) -> u32
        ensures { result ≡ length self.now }
    {
        self.duties.len() as u32
    }

    /// How many of them begin a try variable.
    pub fn tries(&self) -> u32
        ensures { result ≡ tries_in self.now }
    {
        self.tries
    }

    /// The number of one point more, where there is one for it.
    fn next_point(&self) -> Result<u32, NoMemory>
        ensures point { IfOk result (λ point. point ≡ length self.now) }
        ensures room { OnOk result (length self.now + 1 < 2 ^ 32) }
    {
        let point = self.points();
        if point == u32::MAX {
            return Err(NoMemory);
        }
        Ok(point)
    }

    /// The try variable that would begin there.
    fn next_variable(&self) -> Result<Variable, NoMemory>
        ensures variable { IfOk result (λ variable. variable ≡ variable_after self.now) }
        ensures room { OnOk result (length self.now + 1 < 2 ^ 32) }
    {
        Ok(Variable {
            number: self.tries,
            begin: self.next_point()?,
        })
    }

    /// One point more, which begins a try variable.
    fn declare(&mut self, local: u32) -> Result<(), NoMemory>
        ensures put { OnOk result (self.new ≡ self.old ++ duty.Declares local ∷ []) }
        ensures kept { OnErr result (self.new ≡ self.old) }
    {
        let variable = self.next_variable()?;
        make_room(&mut self.variables, local)?;
        self.duties.push(Duty::Declares(local))?;
        put(&mut self.variables, local, variable);
        self.tries = variable.number + 1;
        Ok(())
    }

    /// One point more, which begins none.
    fn add(&mut self, duty: Duty) -> Result<(), NoMemory>
        requires { local_in duty ≡ None }
        ensures put { OnOk result (self.new ≡ self.old ++ duty ∷ []) }
        ensures kept { OnErr result (self.new ≡ self.old) }
    {
        self.next_point()?;
        self.duties.push(duty)?;
        Ok(())
    }

    /// One point more, by what it does, where of the locals only try variables are declared.
    fn put(&mut self, duty: Duty) -> Result<(), NoMemory>
        ensures put { OnOk result (self.new ≡ self.old ++ duty ∷ []) }
        ensures kept { OnErr result (self.new ≡ self.old) }
    {
        match duty {
            Duty::Declares(local) => self.declare(local),
            _ => self.add(duty),
        }
    }

    /// One point more behind the others, by what it does and whether it begins a local with what a try gives; where it begins none, that
    /// doesn't matter.
    pub fn push(&mut self, duty: Duty, is_try: bool) -> Result<(), NoMemory>
        ensures put { OnOk result (self.new ≡ self.old ++ duty_with duty is_try ∷ []) }
        ensures grown { OnOk result (Grows duty is_try self.old self.new) }
        ensures kept { OnErr result (self.new ≡ self.old) }
    {
        self.put(duty_for(duty, is_try))
    }

    /// What a point does; one that isn't there passes.
    fn duty(&self, point: u32) -> Duty
        ensures { result ≡ duty_in self.now point }
    {
        match self.duties.get(point as usize) {
            Some(duty) => *duty,
            None => Duty::Passes,
        }
    }

    /// The try variable that a local is.
    fn variable(&self, local: u32) -> Option<Variable>
        ensures { result ≡ variable_in self.now local }
    {
        variable_of(&self.variables, local)
    }

    /// The number of the try variable that a local is; of another local, the number behind all of theirs.
    #[tactic(auto, using(crate::proofs::VariablePlaces::number_some, crate::proofs::VariablePlaces::number_none))]
    fn number(&self, local: u32) -> u32
        ensures { result ≡ number_in self.now local }
    {
        match self.variable(local) {
            Some(variable) => variable.number,
            None => self.tries,
        }
    }

    /// What a test looks at.
    fn asked(&self, looked: Looked) -> Asked
        ensures { result ≡ asked_in self.now looked }
    {
        match looked {
            Looked::Call => Asked::Call,
            Looked::Local(local) => Asked::Variable(self.number(local)),
        }
    }

    /// The role of a point; one that isn't there passes.
    pub fn role(&self, point: u32) -> Role
        ensures { result ≡ role_in self.now point }
    {
        match self.duty(point) {
            Duty::Declares(local) => Role::Declares(self.number(local)),
            Duty::Tests(told) => Role::Tests(Test {
                asked: self.asked(told.asked),
                yes_means: told.yes_means,
            }),
            Duty::Leaves(answer) => Role::Leaves(answer),
            Duty::Passes => Role::Passes,
        }
    }

    /// The point at which the try variable begins that a test looks at.
    fn begin_of(&self, looked: Looked) -> Option<u32>
        ensures { result ≡ spec_begin_of self.now looked }
    {
        match looked {
            Looked::Call => None,
            Looked::Local(local) => Some(self.variable(local)?.begin),
        }
    }

    /// The point at which the try variable begins that a point tests, where it tests one.
    pub fn kept_at(&self, point: u32) -> Option<u32>
        ensures { result ≡ begin_in self.now point }
    {
        match self.duty(point) {
            Duty::Tests(told) => self.begin_of(told.asked),
            _ => None,
        }
    }
}
