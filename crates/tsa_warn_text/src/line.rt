//! A warning's text behind its place.
ghost use Rattle.std.specs.Prelude.{◌≡◌, ◌++◌, OnOk};
ghost use Rattle.tsa_warn_text.specs.Lines.{head_text, lock_text, warning_text};

use crate::rules::{before_lock, behind_path, rule_code};
use tsa_base::NoMemory;
use tsa_rules::Rule;

/// What a warning speaks of: the rule, the name of the function, and a lock by the text of its kind and of its path.
#[derive(Clone, Copy)]
pub struct Subject<'t> {
    pub rule: Rule,
    pub function: &'t [u8],
    pub kind: &'t [u8],
    pub path: &'t [u8],
}

/// Appends the code of a rule and the function in which it fails.
#[tactic(auto, unfolding(crate::specs::Lines::head_text))]
fn push_head(text: &mut Vec<u8>, rule: Rule, function: &[u8]) -> Result<(), NoMemory>
    ensures { OnOk result (text.new.items ≡ text.old.items ++ head_text rule function.now) }
{
    text.extend_from_slice(rule_code(rule))?;
    text.extend_from_slice(b" in ")?;
    text.extend_from_slice(function)?;
    text.extend_from_slice(b": ")?;
    Ok(())
}

/// Appends what a rule says of a lock.
#[tactic(auto, unfolding(crate::specs::Lines::lock_text))]
fn push_lock(text: &mut Vec<u8>, rule: Rule, kind: &[u8], path: &[u8]) -> Result<(), NoMemory>
    ensures { OnOk result (text.new.items ≡ text.old.items ++ lock_text rule kind.now path.now) }
{
    text.extend_from_slice(before_lock(rule))?;
    text.extend_from_slice(kind)?;
    text.extend_from_slice(b" '")?;
    text.extend_from_slice(path)?;
    text.extend_from_slice(behind_path(rule))?;
    Ok(())
}

/// Appends what a warning says behind its place: `TSnn in F: ` and what the rule says of the lock.
#[tactic(auto, unfolding(crate::specs::Lines::warning_text))]
pub fn push_warning(text: &mut Vec<u8>, subject: Subject<'_>) -> Result<(), NoMemory>
    ensures { OnOk result (text.new.items ≡ text.old.items ++ warning_text subject.entry.rule subject.entry.function.now
        subject.entry.kind.now subject.entry.path.now) }
{
    push_head(text, subject.rule, subject.function)?;
    push_lock(text, subject.rule, subject.kind, subject.path)
}
