//! What bytes are written to.
ghost use Rattle.std.specs.Prelude.{◌≡◌, ℕ, ◌+◌, ◌<◌, ◌≤◌, List, Option, length, take, IfOk, OnOk, OnErr};
ghost use Rattle.byte_streams.specs.Faults.{HasRisen};
ghost use Rattle.byte_streams.specs.Streams.{appended, AppendsPart};

use crate::faults::Failed;

/// A device that takes bytes in order, and may fail.
///
/// `written` tells the bytes that it has got, or nothing. `faults` is its count of faults, which never
/// falls. `calls` counts its writes, where it counts them. Who tells goes on telling, and who tells
/// nothing goes on telling nothing.
pub trait Sink {
    ghost written: { Self → Option (List ℕ) };

    ghost faults: { Self → ℕ };

    ghost calls: { Self → ℕ };

    /// Appends some of the first bytes of `piece`, and answers how many: at least one, where `piece`
    /// is not empty.
    fn write(&mut self, piece: &[u8]) -> Result<usize, Failed>
        ensures within { IfOk result (λ n. n ≤ length piece.now) }
        ensures progress { IfOk result (λ n. 0 < length piece.now → 0 < n) }
        ensures appended { IfOk result (λ n. written self.new ≡ appended (written self.old) (take n piece.now)) }

        // A write that fails appends nothing.
        ensures kept { OnErr result (written self.new ≡ written self.old) }

        ensures failed { OnErr result (HasRisen (faults self.old) (faults self.new)) }
        ensures steady { OnOk result (faults self.new ≡ faults self.old) }
        ensures never_falls { faults self.old ≤ faults self.new }
        ensures one_call { calls self.new ≤ calls self.old + 1 };
}

/// Writes all of the bytes, in as many writes as that takes: at most one for each byte.
///
/// A write that fails ends it. The bytes that were written before stay written.
pub fn write_whole<K: Sink>(sink: &mut K, bytes: &[u8]) -> Result<(), Failed>
    ensures whole { OnOk result (K.written sink.new ≡ appended (K.written sink.old) bytes.now) }
    ensures part { OnErr result (AppendsPart bytes.now (K.written sink.old) (K.written sink.new)) }

    ensures failed { OnErr result (HasRisen (K.faults sink.old) (K.faults sink.new)) }
    ensures steady { OnOk result (K.faults sink.new ≡ K.faults sink.old) }
    ensures never_falls { K.faults sink.old ≤ K.faults sink.new }
    ensures few_writes { K.calls sink.new ≤ K.calls sink.old + length bytes.now }
{
    let mut at = 0;
    while at < bytes.len() {
        at += sink.write(&bytes[at..])?;
    }
    Ok(())
}
