//! Numbers, values and words of lines.
ghost use Rattle.std.specs.Prelude.{◌≡◌, ◌++◌, OnOk, decimal};
ghost use Rattle.std.specs.Fmt.{signed_decimal};
ghost use Rattle.tsa_trace.specs.EventLines.{answer_text, mode_text, pointer_text, way_text, took_text, trap_text, value_text};

use crate::tracer::Tracer;
use itoa::Buffer;
use tsa_base::{NoMemory, Value};
use tsa_sched::{Mode, TrapKind};

/// Appends a number in decimal.
pub fn put_number(out: &mut Vec<u8>, number: u32) -> Result<(), NoMemory>
    ensures { OnOk result (out.new.items ≡ out.old.items ++ decimal number) }
{
    let mut digits = Buffer::new();
    out.extend_from_slice(digits.format(number).as_bytes())?;
    Ok(())
}

/// Appends a number in decimal, with `-` in front of one below 0.
fn put_int(out: &mut Vec<u8>, number: i32) -> Result<(), NoMemory>
    ensures { OnOk result (out.new.items ≡ out.old.items ++ signed_decimal number) }
{
    let mut digits = Buffer::new();
    out.extend_from_slice(digits.format(number).as_bytes())?;
    Ok(())
}

/// The word of a mode.
pub fn mode_word(mode: Mode) -> &'static [u8]
    ensures { result.now ≡ mode_text mode }
{
    match mode {
        Mode::Exclusive => b"exclusive",
        Mode::Shared => b"shared",
    }
}

/// What stands behind the mode of a lock that was tried.
pub fn took_word(took: bool) -> &'static [u8]
    ensures { result.now ≡ took_text took }
{
    if took { b" took" } else { b" not" }
}

/// The word of the way that a test went.
pub fn way_word(taken: bool) -> &'static [u8]
    ensures { result.now ≡ way_text taken }
{
    if taken { b"true" } else { b"false" }
}

/// The word of a trap.
pub fn trap_word(kind: TrapKind) -> &'static [u8]
    ensures { result.now ≡ trap_text kind }
{
    match kind {
        TrapKind::Overflow => b"overflow",
        TrapKind::Division => b"division",
        TrapKind::NullPointer => b"null",
        TrapKind::OutOfRange => b"index",
        TrapKind::Depth => b"depth",
    }
}

impl Tracer<'_, '_> {
    /// Appends what a pointer points to: `null`, or `&` and the text of a place.
    fn put_pointer(&self, out: &mut Vec<u8>, place: Option<u32>) -> Result<(), NoMemory>
        ensures { OnOk result (out.new.items ≡ out.old.items ++ pointer_text self.now place) }
    {
        match place {
            Some(place) => {
                out.extend_from_slice(b"&")?;
                self.put_place(out, place)
            }
            None => {
                out.extend_from_slice(b"null")?;
                Ok(())
            }
        }
    }

    /// Appends a value.
    pub(crate) fn put_value(&self, out: &mut Vec<u8>, value: Value) -> Result<(), NoMemory>
        ensures { OnOk result (out.new.items ≡ out.old.items ++ value_text self.now value) }
    {
        match value {
            Value::Int(number) => put_int(out, number),
            Value::Unsigned(number) => put_number(out, number),
            Value::Pointer(place) => self.put_pointer(out, place),
        }
    }

    /// Appends what the environment answered, where it gave something.
    pub(crate) fn put_answer(
        &self,
        out: &mut Vec<u8>,
        answer: Option<Value>,
    ) -> Result<(), NoMemory>
        ensures { OnOk result (out.new.items ≡ out.old.items ++ answer_text self.now answer) }
    {
        match answer {
            Some(value) => {
                out.extend_from_slice(b" = ")?;
                self.put_value(out, value)
            }
            None => Ok(()),
        }
    }
}
