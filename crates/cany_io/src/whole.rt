ghost use Rattle.std.specs.Prelude.{◌≡◌, ◌+◌, ◌<◌, ◌≤◌, [], length, IsOk, IsErrOf, IfOk, IfSome, OnOk, OnErr};
ghost use Rattle.cany_io.specs.Faults.{HasRisen};
ghost use Rattle.cany_io.specs.Sink.{Takes, TakesPrefix};
ghost use Rattle.cany_io.specs.Source.{Gives, GivesAtMost, GivesCount, IsAtEnd};
ghost use Rattle.cany_io.specs.declared.whole.ReadFault.TheVariants.{Failed as ReadFailed, Memory as ReadMemory};

use crate::{Failed, Sink, Source};
use std::alloc::{AllocError, Global};
use thiserror::Error;

/// How many bytes one read asks for at most.
const CHUNK: usize = 4096;

/// Why a source was not read to its end.
#[derive(Clone, Copy, Debug, PartialEq, Eq, Error)]
pub enum ReadFault {
    /// The source answered that it failed.
    #[error("reading failed")]
    Failed,
    /// The source gave more bytes than the limit.
    #[error("more bytes than the limit")]
    TooLong,
    /// There was no memory for the bytes.
    #[error("out of memory")]
    Memory,
}

impl From<Failed> for ReadFault {
    ghost from_gives = { λ _ fault. fault ≡ ReadFailed };

    fn from(_: Failed) -> Self {
        ReadFault::Failed
    }
}

impl From<AllocError> for ReadFault {
    ghost from_gives = { λ _ fault. fault ≡ ReadMemory };

    fn from(_: AllocError) -> Self {
        ReadFault::Memory
    }
}

/// Reads to the end, at most `limit` bytes, and stops at the first byte beyond. The bytes that were
/// read before a fault are lost.
///
/// Promise: at `Ok` these bytes, at most `limit`, were all that was left, and nothing is left. In
/// any case at most one byte beyond the limit was read. Where the source tells its bytes, their
/// number decides between `Ok` and `TooLong`.
///
/// Shown by: `texts_within_a_limit_are_read`, `the_first_read_fails`, `streams_of_std`,
/// `a_byte_of_each_read_is_lost`, `reading_ends_at_a_short_read`, `too_long_at_the_limit`.
///
/// # Errors
///
/// `TooLong` only where more than `limit` bytes were left, if the source tells them. `Failed` only
/// where the source's count of faults rose, or stands at the last number of 64 bits. `Memory`: out
/// of memory.
pub fn read_all<S: Source>(
    alloc: Global,
    source: &mut S,
    limit: usize,
) -> Result<Vec<u8>, ReadFault>
    // These bytes were all that was left, and nothing is left.
    ensures bytes { IfOk result (λ all. Gives (S.left source.old) all.items (S.left source.new)) }
    ensures whole { IfOk result (λ all. IfSome (S.left source.old) (λ bytes. all.items ≡ bytes)) }
    ensures end { OnOk result (IsAtEnd (S.left source.new)) }
    ensures within { IfOk result (λ all. length all.items ≤ limit) }

    // Where the bytes left are told, their number alone decides between `Ok` and `TooLong`.
    ensures fits { OnOk result (IfSome (S.left source.old) (λ bytes. length bytes ≤ limit)) }
    ensures too_long { IsErrOf result ReadFault.TooLong → IfSome (S.left source.old) (λ bytes. limit < length bytes) }

    // No more than one byte beyond the limit is read.
    ensures stops { IsErrOf result ReadFault.TooLong → GivesCount (S.left source.old) (limit + 1) (S.left source.new) }
    ensures at_most { GivesAtMost (S.left source.old) (limit + 1) (S.left source.new) }

    // It fails only where the source did.
    ensures count { S.faults source.old ≤ S.faults source.new }
    ensures failed { IsErrOf result ReadFault.Failed → HasRisen (S.faults source.old) (S.faults source.new) }
{
    let mut bytes = Vec::new(alloc);
    let mut chunk = [0u8; CHUNK];
    'turns: loop {
        let space = limit - bytes.len();
        let want = space.min(CHUNK - 1) + 1;
        let count = source.read(&mut chunk[..want])?;
        if count == 0 {
            return Ok(bytes);
        }
        if count > space {
            return Err(ReadFault::TooLong);
        }
        bytes.extend_from_slice(&chunk[..count])?;
    }
}

/// Writes all of `bytes`, in as many pieces as the sink takes. It takes no memory. Nothing is
/// called where there are no bytes.
///
/// Promise: at `Ok` the sink took exactly these bytes, and in any case a prefix of them. Where
/// there are no bytes the answer is `Ok`, and the sink is as it was.
///
/// Shown by: `the_third_write_fails`, `streams_of_std`, `writing_always_fails`,
/// `writing_ends_after_one_piece`.
///
/// # Errors
///
/// `Failed` only where the sink's count of faults rose, or stands at the last number of 64 bits.
pub fn write_whole<K: Sink>(sink: &mut K, bytes: &[u8]) -> Result<(), Failed>
    ensures bytes { OnOk result (Takes (K.taken sink.old) bytes.now (K.taken sink.new)) }
    ensures prefix { TakesPrefix (K.taken sink.old) bytes.now (K.taken sink.new) }
    ensures empty { bytes.now ≡ [] → IsOk result × (sink.new ≡ sink.old) }
    ensures count { K.faults sink.old ≤ K.faults sink.new }
    ensures failed { OnErr result (HasRisen (K.faults sink.old) (K.faults sink.new)) }
{
    let mut written = 0;
    'pieces: while written < bytes.len() {
        written += sink.write(&bytes[written..])?;
    }
    Ok(())
}
