ghost use Rattle.std.specs.Prelude.{◌≡◌, OnOk, OnErr, length};
ghost use Rattle.hh_io.specs.Counts.{HasCause};
ghost use Rattle.hh_io.specs.Sinks.{Takes, TakesPart, TellsOn};

use crate::{Failed, Sink};

/// Writes all the bytes, or a prefix of them where a write fails.
pub fn write_all<K: Sink>(sink: &mut K, bytes: &[u8]) -> Result<(), Failed>
    ensures all { OnOk result (Takes (K.taken sink.old) (K.taken sink.new) bytes.now) }
    ensures told { OnOk result
        (TellsOn (K.taken sink.old) (K.taken sink.new) (K.room sink.old) (length bytes.now)) }
    ensures same_room { K.room sink.new ≡ K.room sink.old }
    ensures part { OnErr result (TakesPart (K.taken sink.old) (K.taken sink.new) bytes.now) }
    ensures cause { HasCause (K.faults sink.old) (K.faults sink.new) result }
{
    let mut at = 0;
    while at < bytes.len() {
        at += sink.write(&bytes[at..])?;
    }
    Ok(())
}
