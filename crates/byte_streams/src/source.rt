//! What bytes are read from.
ghost use Rattle.std.specs.Prelude.{◌≡◌, ℕ, ◌+◌, ◌≤◌, List, [], Option, length, vec_len, IfSome, IfOk, OnOk, OnErr, MatchResult};
ghost use Rattle.std.specs.Option.{option_map};
ghost use Rattle.byte_streams.specs.Faults.{HasRisen};
ghost use Rattle.byte_streams.specs.Streams.{MovesFirst, without_first, LeavesAfter, Explains, Counts};

use crate::faults::{Failed, ReadFault};
use std::alloc::Global;

/// The greatest number of bytes that `read_all` asks for at once.
const CHUNK: usize = 8192;

/// A device that gives bytes in order, and may fail.
///
/// `left` tells the bytes that it has left, or nothing. `faults` is its count of faults, which never
/// falls. `calls` counts its reads, where it counts them. Who tells goes on telling, and who tells
/// nothing goes on telling nothing.
pub trait Source {
    ghost left: { Self → Option (List ℕ) };

    ghost faults: { Self → ℕ };

    ghost calls: { Self → ℕ };

    /// Moves some of the bytes that are left to the front of `buf`, and answers how many.
    ///
    /// `Ok(0)` for a buffer that is not empty says that nothing is left.
    fn read(&mut self, buf: &mut [u8]) -> Result<usize, Failed>
        ensures within { IfOk result (λ n. n ≤ length buf.old) }
        ensures moved { IfOk result (λ n. IfSome (left self.old) (λ told. MovesFirst n told buf.old buf.new)) }
        ensures rest { IfOk result (λ n. left self.new ≡ without_first n (left self.old)) }

        // A read that fails moves nothing.
        ensures kept { OnErr result (left self.new ≡ left self.old) }
        ensures untouched { OnErr result (IfSome (left self.old) (λ _. buf.new ≡ buf.old)) }

        ensures failed { OnErr result (HasRisen (faults self.old) (faults self.new)) }
        ensures steady { OnOk result (faults self.new ≡ faults self.old) }
        ensures never_falls { faults self.old ≤ faults self.new }
        ensures one_call { calls self.new ≤ calls self.old + 1 };
}

/// Reads to the end, if there are at most `limit` bytes.
///
/// It makes at most `limit + 1` reads and takes at most `limit + 1` bytes. A read that fails ends it.
/// What was taken before a fault is lost.
pub fn read_all<S: Source>(
    alloc: Global,
    source: &mut S,
    limit: usize,
) -> Result<Vec<u8>, ReadFault>
    ensures all { IfOk result (λ bytes. IfSome (S.left source.old) (λ told. bytes.items ≡ told)) }
    ensures nothing_left { OnOk result (S.left source.new ≡ option_map (λ _. []) (S.left source.old)) }
    ensures within { IfOk result (λ bytes. vec_len bytes ≤ limit) }

    ensures cause { MatchResult result (λ _. Unit {0}) (λ fault. Explains fault limit (S.left source.old)) }
    ensures fault_left { MatchResult result (λ _. Unit {0})
        (λ fault. LeavesAfter fault limit (S.left source.old) (S.left source.new)) }

    ensures counted { MatchResult result (λ _. S.faults source.new ≡ S.faults source.old)
        (λ fault. Counts fault (S.faults source.old) (S.faults source.new)) }
    ensures never_falls { S.faults source.old ≤ S.faults source.new }
    ensures few_reads { S.calls source.new ≤ S.calls source.old + limit + 1 }
{
    let mut bytes = Vec::new(alloc);
    let mut chunk = [0; CHUNK];
    loop {
        let room = limit - bytes.len();
        let asked = if room < CHUNK { room + 1 } else { CHUNK };
        let count = source.read(&mut chunk[..asked])?;
        if count == 0 {
            return Ok(bytes);
        }
        if room < count {
            return Err(ReadFault::TooLong);
        }
        bytes.extend_from_slice(&chunk[..count])?;
    }
}
