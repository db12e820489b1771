//! Reading with a limit.

ghost use Rattle.std.specs.Prelude.{◌≡◌, ◌≤◌, Err, IfOk, IfSome, IsTrue, OnOk, vec_len};
ghost use Rattle.std.specs.Io.KnownBytes.{IsAtEnd};
ghost use Rattle.krates_host.specs.Reading.{Adds, IsLonger, IsTooLong};
ghost use Rattle.krates_host.specs.declared.reading.ReadFailure.TheVariants.{Memory, TooLong};

use std::alloc::{AllocError, Global};
use std::io;
use std::io::{ErrorKind, Read};

/// Why something isn't read to its end.
#[derive(Debug, Drop)]
pub(crate) enum ReadFailure {
    /// It is longer than the limit.
    TooLong,
    /// A read failed.
    Failed(io::Error),
    /// Memory ran out.
    Memory,
}

impl From<AllocError> for ReadFailure {
    ghost from_gives = { λ _ e. e ≡ Memory };

    fn from(_error: AllocError) -> ReadFailure {
        ReadFailure::Memory
    }
}

/// All bytes of a reader up to its end. It is refused as `TooLong` exactly where there are more than the limit allows, and otherwise as
/// `Failed` or `Memory`. Time O(n) for n bytes.
pub(crate) fn read_whole<R: Read>(
    alloc: Global,
    reader: &mut R,
    max: u64,
) -> Result<Vec<u8>, ReadFailure>
    ensures whole { IfOk result
        (λ bytes. IfSome (R.remaining reader.old) (λ known. bytes.items ≡ known)) }
    ensures within { IfOk result (λ bytes. vec_len bytes ≤ max) }
    ensures longer { result ≡ Err TooLong → IfSome (R.remaining reader.old) (IsLonger max) }
{
    let mut bytes = Vec::new(alloc);
    for _ in 0..u64::MAX {
        if read_more(reader, &mut bytes, max)? {
            return Ok(bytes);
        }
    }
    Err(ReadFailure::Failed(io::Error::from(ErrorKind::TimedOut)))
}

/// Adds what one read gives, if the limit allows as many, and returns whether that was the end. A read that was interrupted adds
/// nothing.
pub(crate) fn read_more<R: Read>(
    reader: &mut R,
    bytes: &mut Vec<u8>,
    max: u64,
) -> Result<bool, ReadFailure>
    requires { vec_len bytes.old ≤ max }
    ensures added { OnOk result
        (Adds (R.remaining reader.old) (R.remaining reader.new) bytes.old.items bytes.new.items) }
    ensures end { IfOk result (λ has_ended. IsTrue has_ended → IsAtEnd (R.remaining reader.new)) }
    ensures within { vec_len bytes.new ≤ max }
    ensures longer { result ≡ Err TooLong → IsTooLong (R.remaining reader.old) bytes.old.items max }
{
    let mut buffer = [0u8; 16384];
    let count = match reader.read(&mut buffer) {
        Ok(count) => count,
        Err(cause) if cause.kind() == ErrorKind::Interrupted => return Ok(false),
        Err(cause) => return Err(ReadFailure::Failed(cause)),
    };
    if count as u64 > max - bytes.len() as u64 {
        return Err(ReadFailure::TooLong);
    }
    bytes.extend_from_slice(&buffer[..count])?;
    Ok(count == 0)
}
