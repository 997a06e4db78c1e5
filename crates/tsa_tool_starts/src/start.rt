//! How a thread begins by a word of a run.
ghost use Rattle.std.specs.Prelude.{◌≡◌, [], None, option_map, IfOk, IfSome};
ghost use Rattle.tsa_mean.specs.Starts.{Begin};
ghost use Rattle.tsa_profile.specs.Arguments.{behind_unit as spec_behind_unit, view_behind};
ghost use Rattle.tsa_profile.specs.Units.{unit_of};
ghost use Rattle.tsa_rules_bodies.specs.Finding.{IsFound};
ghost use Rattle.tsa_rules_bodies.specs.Sites.{site_of};
ghost use Rattle.tsa_tool_starts.specs.Starts.{IsGoodWord, arguments_of, begin_with as spec_begin_with};
ghost use Rattle.tsa_tool_starts.specs.Starts.{function_named as spec_function_named};
ghost use Rattle.tsa_tool_starts.specs.Starts.{start_of as spec_start_of, start_with as spec_start_with};
ghost use Rattle.tsa_tool_starts.specs.Units.{items_in};
ghost use Rattle.tsa_tree.specs.expressions.Shapes.{shape, shapes};
ghost use Rattle.tsa_tree.specs.types.Lookups.{params_in};

use crate::arguments::values_of;
use crate::call::{any_binds, call_in};
use crate::expression::expression_in;
use crate::starter::Starter;
use bumpalo::Bump;
use tsa_base::{NoMemory, Value};
use tsa_mean::ThreadStart;
use tsa_profile::Ending;
use tsa_rules_bodies::{BodySite, site_in};
use tsa_tree::expr::Expr;
use tsa_tree::meaning::Meaning;
use tsa_types_scope::Scope;

/// The function that a name means.
fn function_named(scope: &Scope<'_>, name: &[u8]) -> Option<u32>
    ensures { result ≡ spec_function_named scope.now name.now }
{
    match scope.declared(name)?.meaning {
        Meaning::Function(number) => Some(number),
        _ => None,
    }
}

/// How a thread begins with a function and the values of its arguments, where there are such.
fn begin_with(function: u32, values: Option<Vec<Value>>) -> Option<ThreadStart>
    ensures { result ≡ spec_begin_with function (option_map (λ v. v.items) values) }
{
    match values {
        Some(args) => Some(ThreadStart { function, args }),
        None => None,
    }
}

impl<'a> Starter<'_, 'a> {
    /// The values of arguments for the parameters of a function.
    fn arguments(&self, function: u32, args: &[Expr<'_>]) -> Result<Option<Vec<Value>>, NoMemory>
        ensures { IfOk result (λ values. option_map (λ v. v.items) values
            ≡ arguments_of (view_behind (items_in self.now) self.now.places.now) (params_in (spec_behind_unit (items_in self.now)) function) (shapes args.now)) }
    {
        let layout = self.places.layout();
        let ending = Ending {
            scope: &self.scope,
            layout: &layout,
        };
        values_of(self.alloc, ending, self.scope.params(function), args)
    }

    /// The body of a function, where it has one.
    fn site(&self, function: u32) -> Result<Option<BodySite<'a>>, NoMemory>
        ensures { IfOk result (λ found. IsFound (unit_of [] (items_in self.now)) function (site_of (items_in self.now) function) found) }
    {
        site_in(self.alloc, self.unit.typed(), self.places, function)
    }

    /// How a thread begins with a function of a number and some arguments, where it can.
    fn start_with(&self, function: u32, args: &[Expr<'_>]) -> Result<Option<ThreadStart>, NoMemory>
        ensures { IfOk result (λ start. start ≡ spec_start_with (items_in self.now) self.now.places.now (shapes args.now) function) }
    {
        let Some(site) = self.site(function)? else {
            return Ok(None);
        };
        if any_binds(site.known.locks_of(function)) {
            return Ok(None);
        }
        Ok(begin_with(function, self.arguments(function, args)?))
    }

    /// How a thread begins by an expression, where that says it.
    fn start_of(&self, expr: &Expr<'_>) -> Result<Option<ThreadStart>, NoMemory>
        ensures { IfOk result (λ start. start ≡ spec_start_of (items_in self.now) self.now.places.now (shape expr.now)) }
    {
        let Some(call) = call_in(expr) else {
            return Ok(None);
        };
        match function_named(&self.scope, call.name) {
            Some(function) => self.start_with(function, call.args),
            None => Ok(None),
        }
    }

    /// How a thread begins by a word, which is the name of a function or a call as an expression spells it. None where the word has more
    /// than `INPUT_LIMIT` bytes, where its tokens aren't those of one such expression, where no function of this name has a body, where the
    /// function requires or releases a lock or is a try, where there are more arguments than parameters or fewer, or where one can't stand
    /// as the initialiser of a global of its parameter's type that is declared behind all items.
    pub fn start(&self, word: &[u8]) -> Result<Option<ThreadStart>, NoMemory>
        ensures good { IfOk result (λ start. IfSome start (λ b. IsGoodWord (items_in self.now) self.now.places.now word.now b)) }
        ensures bad { IfOk result (λ start. start ≡ None → (b : Begin) → IsGoodWord (items_in self.now) self.now.places.now word.now b → ⊥) }
    {
        let bump = Bump::new(self.alloc);
        match expression_in(self.alloc, &bump, word)? {
            Some(expr) => self.start_of(&expr),
            None => Ok(None),
        }
    }
}
