//! The lines of warnings and of held sets: what each rule says, and what a set has.

use crate::texts::put;
use std::test::Fail;
use tsa_rules::{Statuses, rule_of};
use tsa_warn_text::{Held, Subject, push_held, push_warning};

// What the rule of a number says of a lock `m 'a'` in a function `f`.
fn put_rule(out: &mut Vec<u8>, number: u32) -> Result<(), Fail> {
    let Some(rule) = rule_of(number) else {
        return put(out, b"none\n");
    };
    let subject = Subject {
        rule,
        function: b"f",
        kind: b"m",
        path: b"a",
    };
    push_warning(out, subject)?;
    put(out, b"\n")
}

#[test]
fn each_rule_has_its_text(rt: HostRuntime) -> Result<(), Fail> {
    let mut out = Vec::new(rt.alloc());
    'each: for number in 1..13 {
        put_rule(&mut out, number)?;
    }
    let expected: &[u8] = b"TS01 in f: reading needs m 'a'
TS02 in f: writing needs m 'a' exclusively
TS03 in f: calling needs m 'a' exclusively
TS04 in f: calling needs m 'a'
TS05 in f: calling needs m 'a' not held
TS06 in f: m 'a' is acquired while held or pending
TS07 in f: m 'a' is released while not held
TS08 in f: m 'a' is released while lent or held in another mode
TS09 in f: returning with m 'a' not as declared
TS10 in f: paths that meet here disagree on m 'a'
TS11 in f: two names of the call are m 'a'
TS12 in f: a name in m 'a' is declared again while it is not free
";
    assert_eq!(rt; out.as_slice(), expected);
    Ok(())
}

#[test]
fn a_set_is_told_word_by_word(rt: HostRuntime) -> Result<(), Fail> {
    let mut out = Vec::new(rt.alloc());
    let held = Held {
        function: b"f",
        path: b"p->m",
        set: Statuses { bits: 3855 },
    };
    push_held(&mut out, held, &[b"ok", b"b"])?;
    let expected: &[u8] =
        b"in f: p->m free|shared|exclusive|exclusive 2|exclusive 7|lent|pending ok|pending b";
    assert_eq!(rt; out.as_slice(), expected);
    Ok(())
}
