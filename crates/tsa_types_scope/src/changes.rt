//! What becomes known between the items and the statements of a unit, and what is known no longer (C11 6.2.1p4).
ghost use Rattle.std.specs.Prelude.{◌≡◌, ◌+◌, ◌-◌, ◌^◌, ◌++◌, ◌∷◌, [], not, true, false, take, slice_get, option_map, OnOk, OnErr, IfOk};
ghost use Rattle.tsa_tree.specs.expressions.Shapes.{name_shape};
ghost use Rattle.tsa_tree.specs.types.Heads.{bodied};
ghost use Rattle.tsa_tree.specs.types.Scopes.{with_struct, with_owned, is_taken, with_name, with_names, with_named, with_functions};
ghost use Rattle.tsa_tree.specs.types.Scopes.{with_globals, with_locals, is_named_taken, further};

use crate::names::Names;
use crate::scope::{FunctionTypes, Scope};
use tsa_base::NoMemory;
use tsa_tree::expr::Name;
use tsa_tree::kind::ThingType;
use tsa_tree::meaning::Entry;

impl<'a> Scope<'a> {
    /// Declares a name, after all others, or does nothing where it is taken: whether it was free (C11 6.7p3).
    pub fn declare(&mut self, text: &'a [u8], entry: Entry) -> Result<bool, NoMemory>
        ensures fresh { IfOk result (λ fresh. fresh ≡ not (is_taken text.now self.old)) }
        ensures added { IfOk result (λ fresh. fresh ≡ true → self.new ≡ with_name text.now entry self.old) }
        ensures kept { IfOk result (λ fresh. fresh ≡ false → self.new ≡ self.old) }
        ensures refused { OnErr result (self.new ≡ self.old) }
    {
        self.names.declare(text, entry)
    }

    /// The same for a name that may be left out; one that is left out is free, and isn't declared.
    pub fn declare_named(&mut self, name: Option<Name<'a>>, entry: Entry) -> Result<bool, NoMemory>
        ensures fresh { IfOk result (λ fresh. fresh ≡ not (is_named_taken (option_map name_shape name.entry) self.old)) }
        ensures added { IfOk result (λ fresh. fresh ≡ true → self.new ≡ with_named (option_map name_shape name.entry) entry self.old) }
        ensures kept { IfOk result (λ fresh. fresh ≡ false → self.new ≡ self.old) }
        ensures refused { OnErr result (self.new ≡ self.old) }
    {
        match name {
            Some(name) => self.declare(name.text, entry),
            None => Ok(true),
        }
    }

    /// Defines the next struct, by its members (C11 6.7.2.1).
    pub fn add_struct(&mut self, members: Names<'a, ThingType>) -> Result<(), NoMemory>
        ensures added { OnOk result (self.new ≡ with_struct members.entry self.old) }
        ensures refused { OnErr result (self.new ≡ self.old) }
    {
        self.structs.push(members)?;
        Ok(())
    }

    /// The members that are looked up first change places with others.
    pub fn swap_owned(&mut self, members: &mut Names<'a, ThingType>)
        ensures inside { self.new ≡ with_owned members.old self.old }
        ensures outside { members.new ≡ self.old.owned }
    {
        std::mem::swap(&mut self.owned, members);
    }

    /// Declares the next function.
    pub fn add_function(&mut self, function: FunctionTypes) -> Result<(), NoMemory>
        ensures added { OnOk result (self.new ≡ with_functions (self.old.functions ++ function ∷ []) self.old) }
        ensures refused { OnErr result (self.new ≡ self.old) }
    {
        self.functions.push(function)?;
        Ok(())
    }

    /// Gives a function by its number a body, or none; a body that was there stays.
    pub fn give_body(&mut self, function: u32, with_body: bool)
        ensures { self.new ≡ bodied self.old with_body function (slice_get self.old.functions function) }
    {
        if let Some(known) = self.functions.get_mut(function as usize) {
            known.has_body = known.has_body || with_body;
        }
    }

    /// Counts one more global, of at most 2^32 - 1.
    pub fn count_global(&mut self) -> Result<(), NoMemory>
        ensures added { OnOk result (self.new ≡ with_globals (self.old.globals + 1) self.old) }
        ensures full { OnErr result (self.old.globals ≡ 2 ^ 32 - 1) }
        ensures refused { OnErr result (self.new ≡ self.old) }
    {
        self.globals = self.globals.checked_add(1).ok_or(NoMemory)?;
        Ok(())
    }

    /// Counts one more local, of at most 2^32 - 1.
    pub fn count_local(&mut self) -> Result<(), NoMemory>
        ensures added { OnOk result (self.new ≡ further 1 self.old) }
        ensures full { OnErr result (self.old.locals ≡ 2 ^ 32 - 1) }
        ensures refused { OnErr result (self.new ≡ self.old) }
    {
        self.locals = self.locals.checked_add(1).ok_or(NoMemory)?;
        Ok(())
    }

    /// Sets how many locals there are, as where a body begins.
    pub fn set_locals(&mut self, locals: u32)
        ensures { self.new ≡ with_locals locals self.old }
    {
        self.locals = locals;
    }

    /// Leaves so many of the first names, as after a block.
    pub fn close(&mut self, names: usize)
        ensures { self.new ≡ with_names (take names self.old.names) self.old }
    {
        self.names.close(names);
    }

    /// Leaves so many of the first names, and so many locals, as after a function.
    pub fn leave(&mut self, names: usize, locals: u32)
        ensures { self.new ≡ with_locals locals (with_names (take names self.old.names) self.old) }
    {
        self.close(names);
        self.locals = locals;
    }
}
