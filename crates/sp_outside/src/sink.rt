//! Places that bytes are written to.

ghost use Rattle.std.specs.Prelude.{◌≡◌, ◌<◌, ◌≤◌, length, take, IfOk, OnOk, OnErr};
ghost use Rattle.sp_outside.specs.Bytes.{Appended, AppendedPart};
ghost use Rattle.sp_outside.specs.Counts.{HasCause};
ghost use Rattle.sp_outside.specs.Written.{WrittenBytes};

use crate::Failed;

/// A place that bytes are written to.
pub trait Sink {
    ghost written: { Self → WrittenBytes };

    /// Writes the first bytes of the piece, and says how many; of a piece that isn't empty at least one.
    fn write(&mut self, piece: &[u8]) -> Result<usize, Failed>
        ensures most { IfOk result (λ n. n ≤ length piece.now) }
        ensures some { IfOk result (λ n. 0 < length piece.now → 0 < n) }
        ensures appended { IfOk result (λ n.
            Appended (written self.old).bytes (written self.new).bytes (take n piece.now)) }
        ensures nothing { OnErr result ((written self.new).bytes ≡ (written self.old).bytes) }
        ensures cause { HasCause (written self.old).faults (written self.new).faults result };
}

/// Writes all bytes, in as many pieces as the sink takes them. It takes no memory.
pub fn write_whole<K: Sink>(sink: &mut K, bytes: &[u8]) -> Result<(), Failed>
    ensures whole { OnOk result (Appended (K.written sink.old).bytes (K.written sink.new).bytes bytes.now) }
    ensures part { OnErr result (AppendedPart (K.written sink.old).bytes (K.written sink.new).bytes bytes.now) }
    ensures cause { HasCause (K.written sink.old).faults (K.written sink.new).faults result }
{
    let mut at = 0;
    while at < bytes.len() {
        at += sink.write(&bytes[at..])?;
    }
    Ok(())
}
