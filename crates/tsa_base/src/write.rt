//! Writes all bytes to a sink.
ghost use Rattle.std.specs.Prelude.{◌≡◌, ◌≤◌, ◌<◌, length, IfOk, OnErr, OnOk, IsErrOf};
ghost use Rattle.std.specs.Io.KnownBytes.{Appends};
ghost use Rattle.tsa_base.specs.Causes.{Rose};
ghost use Rattle.tsa_base.specs.Transfer.{AppendsFront};

use crate::{PushTrouble, Sink};

/// Pushes until all bytes are taken. It takes no memory itself. After a refusal the sink has taken a first part of them;
/// `Failed` comes only where the sink's count of faults rose.
pub fn write_all<O: Sink>(out: &mut O, bytes: &[u8]) -> Result<(), PushTrouble>
    ensures all { OnOk result (Appends (O.taken out.old) (O.taken out.new) bytes.now) }
    ensures front { OnErr result (AppendsFront (O.taken out.old) (O.taken out.new) bytes.now) }
    ensures fault { IsErrOf result PushTrouble.Failed → Rose (O.faults out.old) (O.faults out.new) }
    ensures later { O.faults out.old ≤ O.faults out.new }
{
    let mut at = 0;
    'pieces: while at < bytes.len() {
        let count = out.push(&bytes[at..])?;
        at += count;
    }
    Ok(())
}
