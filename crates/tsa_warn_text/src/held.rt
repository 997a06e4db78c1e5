//! What is told of a held lock after a place.
ghost use Rattle.std.specs.Prelude.{◌≡◌, ◌++◌, map, OnOk};
ghost use Rattle.tsa_warn_text.specs.HeldLines.{depth_text, try_name, status_word, set_text, held_text};

use itoa::Buffer;
use tsa_base::NoMemory;
use tsa_rules::{Status, Statuses};

/// What a line of held locks tells: the name of the function, the text of a path, and the statuses that the path may have.
#[derive(Clone, Copy)]
pub struct Held<'t> {
    pub function: &'t [u8],
    pub path: &'t [u8],
    pub set: Statuses,
}

/// Appends the depth of more than one hold.
fn push_depth(text: &mut Vec<u8>, depth: u32) -> Result<(), NoMemory>
    ensures { OnOk result (text.new.items ≡ text.old.items ++ depth_text depth) }
{
    if depth != 1 {
        let mut digits = Buffer::new();
        text.extend_from_slice(b" ")?;
        text.extend_from_slice(digits.format(depth).as_bytes())?;
    }
    Ok(())
}

/// Appends the name of the try variable of a number.
fn push_name(text: &mut Vec<u8>, variable: u32, tries: &[&[u8]]) -> Result<(), NoMemory>
    ensures { OnOk result (text.new.items ≡ text.old.items ++ try_name (map (λ name. name.now) tries.now) variable) }
{
    if let Some(name) = tries.get(variable as usize) {
        text.extend_from_slice(name)?;
    }
    Ok(())
}

/// Appends the word of a status.
#[tactic(auto, unfolding(crate::specs::HeldLines::status_word))]
fn push_word(text: &mut Vec<u8>, status: Status, tries: &[&[u8]]) -> Result<(), NoMemory>
    ensures { OnOk result (text.new.items ≡ text.old.items ++ status_word (map (λ name. name.now) tries.now) status) }
{
    match status {
        Status::Free => text.extend_from_slice(b"free")?,
        Status::Shared => text.extend_from_slice(b"shared")?,
        Status::Exclusive(depth) => {
            text.extend_from_slice(b"exclusive")?;
            push_depth(text, depth)?;
        }
        Status::Lent => text.extend_from_slice(b"lent")?,
        Status::Pending(variable) => {
            text.extend_from_slice(b"pending ")?;
            push_name(text, variable, tries)?;
        }
    }
    Ok(())
}

/// Appends the words of the statuses of a set.
#[tactic(auto, unfolding(crate::specs::HeldLines::set_text))]
fn push_set(text: &mut Vec<u8>, set: Statuses, tries: &[&[u8]]) -> Result<(), NoMemory>
    ensures { OnOk result (text.new.items ≡ text.old.items ++ set_text (map (λ name. name.now) tries.now) set) }
{
    let mut bar: &[u8] = b"";
    'numbers: for number in 0..64 {
        let status = Status::of_number(number);
        if set.has(status) {
            text.extend_from_slice(bar)?;
            push_word(text, status, tries)?;
            bar = b"|";
        }
    }
    Ok(())
}

/// Appends what a line of held locks says after its place: `in F: P S`.
#[tactic(auto, unfolding(crate::specs::HeldLines::held_text))]
pub fn push_held(text: &mut Vec<u8>, held: Held<'_>, tries: &[&[u8]]) -> Result<(), NoMemory>
    ensures { OnOk result (text.new.items
        ≡ text.old.items ++ held_text (map (λ name. name.now) tries.now) held.entry.function.now held.entry.path.now held.entry.set) }
{
    text.extend_from_slice(b"in ")?;
    text.extend_from_slice(held.function)?;
    text.extend_from_slice(b": ")?;
    text.extend_from_slice(held.path)?;
    text.extend_from_slice(b" ")?;
    push_set(text, held.set, tries)
}
