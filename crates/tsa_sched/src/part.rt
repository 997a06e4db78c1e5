//! The pick that is being read, byte by byte.
ghost use Rattle.std.specs.Prelude.{◌≡◌, ◌≤◌};
ghost use Rattle.tsa_sched.specs.Parts.{grown as spec_grown, pick_in as spec_pick_in, digit as spec_digit, longer as spec_longer};
ghost use Rattle.tsa_sched.specs.declared.part.Part.TheVariants.{Thread, Asked};
ghost use Rattle.tsa_sched.specs.Parts.{first_of_negative as spec_first_of_negative, signed as spec_signed, most as spec_most, IsPart};

use crate::pick::Pick;

/// What stands of a pick: nothing, in front of the first one, which may be left out, or behind a comma; a thread; a thread with its colon,
/// with the sign of its answer, and with its answer by sign and size.
#[derive(Clone, Copy)]
pub(crate) enum Part {
    Nothing,
    Begun,
    Thread(u32),
    Asked(u32),
    Minus(u32),
    Answer(u32, bool, u32),
}

/// The digit that a byte is.
fn digit(byte: u8) -> Option<u32>
    ensures { result ≡ spec_digit byte }
{
    if byte.is_ascii_digit() {
        Some(u32::from(byte - b'0'))
    } else {
        None
    }
}

/// The digit that a byte is, where it may stand behind a sign.
fn first_of_negative(byte: u8) -> Option<u32>
    ensures { result ≡ spec_first_of_negative byte }
{
    if b'0' < byte && byte <= b'9' {
        Some(u32::from(byte - b'0'))
    } else {
        None
    }
}

/// A number with one digit more, where it doesn't begin with 0 and stays small.
fn longer(limit: u32, number: u32, byte: u8) -> Option<u32>
    ensures { result ≡ spec_longer limit number byte }
{
    if !byte.is_ascii_digit() || number == 0 {
        return None;
    }
    let more = u64::from(number) * 10 + u64::from(byte - b'0');
    if more <= u64::from(limit) {
        Some(more as u32)
    } else {
        None
    }
}

/// The greatest size of an answer with or without a sign.
fn most(is_negative: bool) -> u32
    ensures { result ≡ spec_most is_negative }
{
    if is_negative {
        0x8000_0000
    } else {
        0x7fff_ffff
    }
}

/// An answer by its sign and size.
fn signed(is_negative: bool, size: u32) -> i32
    requires { size ≤ spec_most is_negative }
    ensures { result ≡ spec_signed is_negative size }
{
    if is_negative {
        (-i64::from(size)) as i32
    } else {
        size as i32
    }
}

/// A thread with a further byte.
fn in_thread(thread: u32, byte: u8) -> Option<Part>
    ensures { result ≡ spec_grown (Thread thread) byte }
{
    if byte == b':' {
        return Some(Part::Asked(thread));
    }
    Some(Part::Thread(longer(u32::MAX, thread, byte)?))
}

/// A thread with its colon, and a further byte.
fn in_answer(thread: u32, byte: u8) -> Option<Part>
    ensures { result ≡ spec_grown (Asked thread) byte }
{
    if byte == b'-' {
        return Some(Part::Minus(thread));
    }
    Some(Part::Answer(thread, false, digit(byte)?))
}

impl Part {
    /// The part with a further byte, where one may stand there.
    pub(crate) fn grown(self, byte: u8) -> Option<Part>
        ensures { result ≡ spec_grown self byte }
    {
        match self {
            Part::Nothing => Some(Part::Thread(digit(byte)?)),
            Part::Begun => Some(Part::Thread(digit(byte)?)),
            Part::Thread(thread) => in_thread(thread, byte),
            Part::Asked(thread) => in_answer(thread, byte),
            Part::Minus(thread) => Some(Part::Answer(thread, true, first_of_negative(byte)?)),
            Part::Answer(thread, is_negative, size) => {
                let size = longer(most(is_negative), size, byte)?;
                Some(Part::Answer(thread, is_negative, size))
            }
        }
    }

    /// The pick, where one may end there.
    pub(crate) fn pick(self) -> Option<Pick>
        requires { IsPart self }
        ensures { result ≡ spec_pick_in self }
    {
        match self {
            Part::Thread(thread) => Some(Pick { thread, answer: 0 }),
            Part::Answer(thread, is_negative, size) => {
                let answer = signed(is_negative, size);
                Some(Pick { thread, answer })
            }
            _ => None,
        }
    }
}
