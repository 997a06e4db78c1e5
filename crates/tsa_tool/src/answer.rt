//! What is answered to an input.
ghost use Rattle.std.specs.Prelude.{◌≡◌, ◌≤◌, ◌∷◌, ◌++◌, [], codes, IfOk, OnOk, length};
ghost use Rattle.tsa_base.specs.declared.limits.TheConstants.{INPUT_LIMIT};
ghost use Rattle.tsa_tool.specs.Checks.{fit_in, tree_in};
ghost use Rattle.tsa_tool.specs.Reports.{IsCheckOf, IsPrintOf, OfUnit, status_number, words_refused, too_long, accepted, warned_report};
ghost use Rattle.tsa_tool.specs.Reports.{refused_report, lex_text, syntax_text, syntax_status, type_text, profile_text, profile_status};
ghost use Rattle.tsa_tool.specs.Reports.{line};
ghost use Rattle.tsa_tool.specs.Answer.{report_of};
ghost use Rattle.tsa_tool_held.specs.OneBody.{warned_of};
ghost use Rattle.tsa_tree.specs.units.Shapes.{HaveTheirPoints, item_shapes};
ghost use Rattle.std.specs.Fmt.{decimal};
ghost use Rattle.tsa_base.specs.Places.{place_at, place_text};

use crate::check::{Refusal, ToolRefusal, canonical_text, read_ready};
use bumpalo::Bump;
use std::alloc::Global;
use tsa_base::{LexCode, LineStarts, NoMemory};
use tsa_expr::SyntaxCode;
use tsa_profile_accesses::ProfileCode;
use tsa_tool_held::{Ready, UnitLines, unit_lines};
use tsa_tree::premise::TypeCode;

/// How an answer ends the program.
#[derive(Clone, Copy)]
pub enum Status {
    Accepted,
    Printed,
    Shown,
    Warned,
    Refused,
    WordsRefused,
    LimitPassed,
}

impl Status {
    /// The exit status.
    pub fn number(self) -> u8
        ensures { result ≡ status_number self }
    {
        match self {
            Status::Accepted | Status::Printed | Status::Shown => 0,
            Status::Warned => 1,
            Status::Refused => 2,
            Status::WordsRefused => 3,
            Status::LimitPassed => 7,
        }
    }
}

/// The text that is written, and the status.
#[derive(Drop)]
pub struct Answer {
    pub status: Status,
    pub text: Vec<u8>,
}

/// The answer to words that ask for no command.
pub fn refuse_words(alloc: Global) -> Result<Answer, NoMemory>
    ensures { IfOk result (λ answer. report_of answer ≡ words_refused) }
{
    answer_of(alloc, Status::WordsRefused, b"words refused\n")
}

/// The answer to an input that is too long.
pub fn refuse_length(alloc: Global) -> Result<Answer, NoMemory>
    ensures { IfOk result (λ answer. report_of answer ≡ too_long) }
{
    answer_of(alloc, Status::LimitPassed, b"LM1 over 1048576 bytes\n")
}

/// The canonical text of the unit of an input that is short enough, or the first refusal.
pub fn print(alloc: Global, bytes: &[u8]) -> Result<Answer, NoMemory>
    requires { length bytes.now ≤ INPUT_LIMIT }
    ensures { IfOk result (λ answer. OfUnit bytes.now IsPrintOf (tree_in bytes.now) (report_of answer)) }
{
    match canonical_text(alloc, bytes) {
        Ok(text) => Ok(Answer {
            status: Status::Printed,
            text,
        }),
        Err(ToolRefusal::Refused(refusal)) => refuse(alloc, bytes, refusal),
        Err(ToolRefusal::NoMemory) => Err(NoMemory),
    }
}

/// The warnings of the unit of an input that is short enough, or that there are none, or the first refusal.
pub fn check(alloc: Global, bytes: &[u8]) -> Result<Answer, NoMemory>
    requires { length bytes.now ≤ INPUT_LIMIT }
    ensures { IfOk result (λ answer. OfUnit bytes.now (IsCheckOf bytes.now) (fit_in bytes.now) (report_of answer)) }
{
    let bump = Bump::new(alloc);
    match read_ready(alloc, &bump, bytes) {
        Ok(ready) => judge(alloc, &ready, bytes),
        Err(ToolRefusal::Refused(refusal)) => refuse(alloc, bytes, refusal),
        Err(ToolRefusal::NoMemory) => Err(NoMemory),
    }
}

// The warnings of a unit in the profile, or that there are none.
fn judge(alloc: Global, ready: &Ready<'_>, bytes: &[u8]) -> Result<Answer, NoMemory>
    requires { HaveTheirPoints ready.now.fit.typed.unit.now.items.now }
    ensures { IfOk result (λ answer. IsCheckOf bytes.now (item_shapes ready.now.fit.typed.unit.now.items.now) (report_of answer)) }
{
    let lines = unit_lines(alloc, ready, bytes)?;
    warned(alloc, lines)
}

// The answer to a unit: the lines of its warnings and how many they are, or that there are none.
fn warned(alloc: Global, lines: UnitLines) -> Result<Answer, NoMemory>
    ensures { IfOk result (λ answer. report_of answer ≡ warned_report (warned_of lines)) }
{
    if lines.count == 0 {
        return accept(alloc);
    }
    let UnitLines { mut text, count } = lines;
    push_count(alloc, &mut text, count)?;
    Ok(Answer {
        status: Status::Warned,
        text,
    })
}

// Appends the line that counts the warnings.
fn push_count(alloc: Global, text: &mut Vec<u8>, count: usize) -> Result<(), NoMemory>
    ensures { OnOk result (text.new.items ≡ text.old.items ++ (codes "warnings: " ++ decimal count ++ 10 ∷ [])) }
{
    let number = count.to_string(alloc)?;
    text.extend_from_slice(b"warnings: ")?;
    text.extend_from_slice(number.as_bytes())?;
    text.extend_from_slice(b"\n")?;
    Ok(())
}

fn accept(alloc: Global) -> Result<Answer, NoMemory>
    ensures { IfOk result (λ answer. report_of answer ≡ accepted) }
{
    answer_of(alloc, Status::Accepted, b"accepted\n")
}

/// The answer to a unit that is refused: the line of the refusal, which names a place in the bytes.
pub fn refuse(alloc: Global, bytes: &[u8], refusal: Refusal) -> Result<Answer, NoMemory>
    ensures { IfOk result (λ answer. report_of answer ≡ refused_report bytes.now refusal) }
{
    match refusal {
        Refusal::Lex { code, byte } => refuse_byte(alloc, bytes, code, byte),
        Refusal::Syntax { code, byte } => refuse_syntax(alloc, bytes, code, byte),
        Refusal::Types { code, byte } => refuse_types(alloc, bytes, code, byte),
        Refusal::Places { byte } => refuse_places(alloc, bytes, byte),
        Refusal::Profile { code, byte } => refuse_profile(alloc, bytes, code, byte),
    }
}

// The answer to a text with a bad byte: its place and what is wrong.
fn refuse_byte(alloc: Global, bytes: &[u8], code: LexCode, byte: u32) -> Result<Answer, NoMemory>
    ensures { IfOk result (λ answer. report_of answer ≡ refused_report bytes.now (Refusal.Lex code byte)) }
{
    Ok(Answer {
        status: Status::Refused,
        text: placed_line(alloc, bytes, byte, lex_text(code))?,
    })
}

// The answer to a text whose tokens are no unit, or one that passes a limit.
fn refuse_syntax(
    alloc: Global,
    bytes: &[u8],
    code: SyntaxCode,
    byte: u32,
) -> Result<Answer, NoMemory>
    ensures { IfOk result (λ answer. report_of answer ≡ refused_report bytes.now (Refusal.Syntax code byte)) }
{
    Ok(Answer {
        status: syntax_status(code),
        text: placed_line(alloc, bytes, byte, syntax_text(code))?,
    })
}

// The answer to a unit of which a premise of types fails.
fn refuse_types(alloc: Global, bytes: &[u8], code: TypeCode, byte: u32) -> Result<Answer, NoMemory>
    ensures { IfOk result (λ answer. report_of answer ≡ refused_report bytes.now (Refusal.Types code byte)) }
{
    Ok(Answer {
        status: Status::Refused,
        text: placed_line(alloc, bytes, byte, type_text(code))?,
    })
}

// The answer to a unit of which a premise of the profile fails, or that passes a limit of it.
fn refuse_profile(
    alloc: Global,
    bytes: &[u8],
    code: ProfileCode,
    byte: u32,
) -> Result<Answer, NoMemory>
    ensures { IfOk result (λ answer. report_of answer ≡ refused_report bytes.now (Refusal.Profile code byte)) }
{
    Ok(Answer {
        status: profile_status(code),
        text: placed_line(alloc, bytes, byte, profile_text(code))?,
    })
}

// The answer to a unit that has too many places, from the declarator at a byte on.
fn refuse_places(alloc: Global, bytes: &[u8], byte: u32) -> Result<Answer, NoMemory>
    ensures { IfOk result (λ answer. report_of answer ≡ refused_report bytes.now (Refusal.Places byte)) }
{
    Ok(Answer {
        status: Status::LimitPassed,
        text: placed_line(alloc, bytes, byte, b"LM6 over 65536 places")?,
    })
}

// A line that says something of a byte.
fn placed_line(alloc: Global, bytes: &[u8], byte: u32, says: &[u8]) -> Result<Vec<u8>, NoMemory>
    ensures { IfOk result (λ text. text.items ≡ line (place_text (place_at bytes.now byte) ++ says.now)) }
{
    let starts = LineStarts::new(alloc, bytes)?;
    let mut text = Vec::new(alloc);
    starts.place(byte).append_to(&mut text)?;
    text.extend_from_slice(says)?;
    text.extend_from_slice(b"\n")?;
    Ok(text)
}

// What a code says.
fn lex_text(code: LexCode) -> &'static [u8]
    ensures { result.now ≡ lex_text code }
{
    match code {
        LexCode::LX1 => b"LX1 byte starts no token",
        LexCode::LX2 => b"LX2 unfinished comment",
        LexCode::LX3 => b"LX3 malformed or too wide number",
        LexCode::LX4 => b"LX4 refused preprocessing line",
        LexCode::LX5 => b"LX5 unfinished text",
    }
}

// What a code of a refused token or function says.
fn syntax_text(code: SyntaxCode) -> &'static [u8]
    ensures { result.now ≡ syntax_text code }
{
    match code {
        SyntaxCode::SY1 => b"SY1 no unit is spelled this way",
        SyntaxCode::AT1 => b"AT1 attribute is left out",
        SyntaxCode::AT2 => b"AT2 attribute argument is missing",
        SyntaxCode::LM2 => b"LM2 over 100 nested",
        SyntaxCode::LM3 => b"LM3 over 4096 points in a function",
        SyntaxCode::LM5 => b"LM5 over 1024 functions",
    }
}

// What a code of a premise of types says.
fn type_text(code: TypeCode) -> &'static [u8]
    ensures { result.now ≡ type_text code }
{
    match code {
        TypeCode::TY1 => b"TY1 unknown name",
        TypeCode::TY2 => b"TY2 declared twice",
        TypeCode::TY3 => b"TY3 wrong type",
        TypeCode::TY4 => b"TY4 wrong number of arguments",
        TypeCode::TY5 => b"TY5 not assignable",
        TypeCode::TY6 => b"TY6 attribute or lock expression out of place",
        TypeCode::TY7 => b"TY7 jump or label without its target",
        TypeCode::TY8 => b"TY8 wrong return",
        TypeCode::TY9 => b"TY9 initialiser or constant refused",
    }
}

// What a code of a premise of the profile, or of a limit of a function, says.
fn profile_text(code: ProfileCode) -> &'static [u8]
    ensures { result.now ≡ profile_text code }
{
    match code {
        ProfileCode::PF1 => b"PF1 call stands in a refused place",
        ProfileCode::PF2 => b"PF2 capability is no stable path",
        ProfileCode::PF3 => b"PF3 address inside a guarded entity",
        ProfileCode::PF4 => b"PF4 local of struct or array type",
        ProfileCode::PF5 => b"PF5 try result is dropped",
        ProfileCode::PF6 => b"PF6 function without a body has no allowed shape",
        ProfileCode::PF7 => b"PF7 attribute does not fit the function's body",
        ProfileCode::PF8 => b"PF8 try result compared with a constant other than 0 and 1",
        ProfileCode::PF9 => b"PF9 capability named twice",
        ProfileCode::LM4 => b"LM4 over 256 capabilities in a function",
        ProfileCode::LM7 => b"LM7 over 48 try variables in a function",
    }
}

// The status of a refusal by the profile.
fn profile_status(code: ProfileCode) -> Status
    ensures { result ≡ profile_status code }
{
    match code {
        ProfileCode::LM4 | ProfileCode::LM7 => Status::LimitPassed,
        _ => Status::Refused,
    }
}

// The status of a refusal of the syntax.
fn syntax_status(code: SyntaxCode) -> Status
    ensures { result ≡ syntax_status code }
{
    match code {
        SyntaxCode::SY1 | SyntaxCode::AT1 | SyntaxCode::AT2 => Status::Refused,
        SyntaxCode::LM2 | SyntaxCode::LM3 | SyntaxCode::LM5 => Status::LimitPassed,
    }
}

// An answer of a status and a text.
fn answer_of(alloc: Global, status: Status, text: &[u8]) -> Result<Answer, NoMemory>
    ensures { IfOk result (λ answer. report_of answer ≡ record { status = status; text = text.now }) }
{
    Ok(Answer {
        status,
        text: text.to_vec(alloc)?,
    })
}
