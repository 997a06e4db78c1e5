//! Try variables by the locals that they are.
ghost use Rattle.std.specs.Prelude.{◌≡◌, ◌<◌, ℕ, Some, None, length, slice_index_or, slice_set, OnOk};
ghost use Rattle.std.specs.Option.{option_or};

use tsa_base::NoMemory;

/// A try variable: its number, and the point at which it begins.
#[derive(Clone, Copy)]
pub struct Variable {
    pub number: u32,
    pub begin: u32,
}

/// Makes room for a local: what is new there is no try variable.
#[tactic(auto, using(crate::proofs::VariablePlaces::none_push))]
pub fn make_room(variables: &mut Vec<Option<Variable>>, local: u32) -> Result<(), NoMemory>
    ensures room { OnOk result (local < length variables.new.items) }
    ensures same { (l : ℕ) → slice_index_or variables.new.items l None ≡ slice_index_or variables.old.items l None }
{
    'room: while variables.len() <= local as usize {
        variables.push(None)?;
    }
    Ok(())
}

/// Puts a try variable at its local, where there is none yet.
pub fn put(variables: &mut Vec<Option<Variable>>, local: u32, variable: Variable)
    requires { local < length variables.old.items }
    ensures { variables.new.items ≡ slice_set variables.old.items local
        (option_or (slice_index_or variables.old.items local None) (Some variable)) }
{
    let number = local as usize;
    variables[number] = variables[number].or(Some(variable));
}

/// The try variable that a local is.
pub fn variable_of(variables: &[Option<Variable>], local: u32) -> Option<Variable>
    ensures { result ≡ slice_index_or variables.now local None }
{
    match variables.get(local as usize) {
        Some(variable) => *variable,
        None => None,
    }
}
