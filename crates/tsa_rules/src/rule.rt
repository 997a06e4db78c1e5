//! The rules, by the codes of their warnings.
ghost use Rattle.std.specs.Prelude.{◌≡◌, nat_eq, find};
ghost use Rattle.tsa_rules.specs.Fails.{all_rules, rule_number};

/// A rule. `TS10` speaks of the edges into a point, and no status breaks it by itself.
#[derive(Clone, Copy, Debug, PartialEq, Eq)]
pub enum Rule {
    /// What is read is held.
    TS01,
    /// What is written is owned alone.
    TS02,
    /// What a called function requires is owned alone.
    TS03,
    /// What it requires shared is held.
    TS04,
    /// What it excludes is free.
    TS05,
    /// What it takes or tries may be taken.
    TS06,
    /// What it gives back is held.
    TS07,
    /// What it gives back is owned, and in the mode in which it gives it back.
    TS08,
    /// At a return and at the end all is as the function declares.
    TS09,
    /// Edges that meet bring the same statuses.
    TS10,
    /// No two names by which a called function claims locks are one path.
    TS11,
    /// What a path mentions isn't declared again while the path isn't free.
    TS12,
}

impl Rule {
    /// Its number.
    pub fn number(self) -> u32
        ensures { result ≡ rule_number self }
    {
        match self {
            Rule::TS01 => 1,
            Rule::TS02 => 2,
            Rule::TS03 => 3,
            Rule::TS04 => 4,
            Rule::TS05 => 5,
            Rule::TS06 => 6,
            Rule::TS07 => 7,
            Rule::TS08 => 8,
            Rule::TS09 => 9,
            Rule::TS10 => 10,
            Rule::TS11 => 11,
            Rule::TS12 => 12,
        }
    }
}

/// The rule of a number.
pub fn rule_of(number: u32) -> Option<Rule>
    ensures { result ≡ find (λ rule. nat_eq (rule_number rule) number) all_rules }
{
    match number {
        1 => Some(Rule::TS01),
        2 => Some(Rule::TS02),
        3 => Some(Rule::TS03),
        4 => Some(Rule::TS04),
        5 => Some(Rule::TS05),
        6 => Some(Rule::TS06),
        7 => Some(Rule::TS07),
        8 => Some(Rule::TS08),
        9 => Some(Rule::TS09),
        10 => Some(Rule::TS10),
        11 => Some(Rule::TS11),
        12 => Some(Rule::TS12),
        _ => None,
    }
}
