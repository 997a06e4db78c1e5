//! The texts of the rules. They stand here and nowhere else.
ghost use Rattle.std.specs.Prelude.{◌≡◌};
ghost use Rattle.tsa_warn_text.specs.Lines.{rule_code as spec_code, before_lock as spec_before, behind_path as spec_behind};

use tsa_rules::Rule;

/// The code of a rule.
pub fn rule_code(rule: Rule) -> &'static [u8]
    ensures { result.now ≡ spec_code rule }
{
    match rule {
        Rule::TS01 => b"TS01",
        Rule::TS02 => b"TS02",
        Rule::TS03 => b"TS03",
        Rule::TS04 => b"TS04",
        Rule::TS05 => b"TS05",
        Rule::TS06 => b"TS06",
        Rule::TS07 => b"TS07",
        Rule::TS08 => b"TS08",
        Rule::TS09 => b"TS09",
        Rule::TS10 => b"TS10",
        Rule::TS11 => b"TS11",
        Rule::TS12 => b"TS12",
    }
}

/// What a rule's text says in front of the lock.
pub fn before_lock(rule: Rule) -> &'static [u8]
    ensures { result.now ≡ spec_before rule }
{
    match rule {
        Rule::TS01 => b"reading needs ",
        Rule::TS02 => b"writing needs ",
        Rule::TS03 | Rule::TS04 | Rule::TS05 => b"calling needs ",
        Rule::TS06 | Rule::TS07 | Rule::TS08 => b"",
        Rule::TS09 => b"returning with ",
        Rule::TS10 => b"paths that meet here disagree on ",
        Rule::TS11 => b"two names of the call are ",
        Rule::TS12 => b"a name in ",
    }
}

/// What it says behind the path.
pub fn behind_path(rule: Rule) -> &'static [u8]
    ensures { result.now ≡ spec_behind rule }
{
    match rule {
        Rule::TS01 | Rule::TS04 | Rule::TS10 | Rule::TS11 => b"'",
        Rule::TS02 | Rule::TS03 => b"' exclusively",
        Rule::TS05 => b"' not held",
        Rule::TS06 => b"' is acquired while held or pending",
        Rule::TS07 => b"' is released while not held",
        Rule::TS08 => b"' is released while lent or held in another mode",
        Rule::TS09 => b"' not as declared",
        Rule::TS12 => b"' is declared again while it is not free",
    }
}
