//! Calls of a reader or a writer that failed: each is reported once, and counted once.

ghost use Rattle.std.specs.Prelude.{◌≡◌, ◌+◌, ◌-◌, ◌<◌, ◌≤◌, ◌^◌, IfOk, length, min};
ghost use Rattle.std.specs.Io.KnownBytes.{ReadConsumes, WriteAppends};
ghost use Rattle.krates_cli.specs.FailedCall.{FailedWith, IsThatCall, end_of, number_of, was_interrupted};
ghost use Rattle.krates_cli.specs.declared.run_error.RunError.TheVariants as errors;

use crate::run_error::RunError;
use std::io;
use std::io::{ErrorKind, Read, Write};

/// A call that failed and isn't counted yet. Only an `Endpoint` makes it. It is neither copied nor dropped, so
/// whoever has it must count it, and can do so only once.
pub(crate) struct FailedCall {
    is_interrupted: bool,
}

/// A failed call that was counted. Only `Failures` makes it, and a run is refused as `Read` or `Write` by it alone.
#[derive(Drop)]
pub(crate) struct CountedCall {
    is_interrupted: bool,
}

/// How many calls have failed. The number stays at its greatest value.
#[derive(Drop)]
pub(crate) struct Failures {
    number: u64,
}

/// The call that failed with this error.
fn failed(error: io::Error) -> FailedCall
    ensures { FailedWith error result }
{
    FailedCall {
        is_interrupted: error.kind() == ErrorKind::Interrupted,
    }
}

/// A reader or a writer that is called only here, one call at a time. Nothing else can change it, so no failed call
/// can be repeated without having been reported.
#[derive(Drop)]
pub(crate) struct Endpoint<T> {
    inner: T,
}

impl<T> Endpoint<T> {
    /// The reader or writer, from now on called only here.
    pub(crate) fn new(inner: T) -> Endpoint<T>
        ensures { end_of result ≡ inner }
    {
        Endpoint { inner }
    }

    /// The reader or writer itself.
    pub(crate) fn get_ref(&self) -> &T
        ensures { result.now ≡ end_of self.now }
    {
        &self.inner
    }
}

impl<R: Read> Endpoint<R> {
    /// One call of the reader, into the front of the buffer; returns how many bytes came.
    pub(crate) fn read_once(&mut self, buffer: &mut [u8]) -> Result<usize, FailedCall>
        ensures bound { IfOk result (λ n. n ≤ length buffer.new) }
        ensures bytes { ReadConsumes (R.remaining (end_of self.old)) (R.remaining (end_of self.new))
            result buffer.new }
    {
        self.inner.read(buffer).map_err(failed)
    }
}

impl<W: Write> Endpoint<W> {
    /// One call of the writer, with the front of the bytes; returns how many were taken. A call that takes none has failed, so there must
    /// be some.
    pub(crate) fn write_once(&mut self, bytes: &[u8]) -> Result<usize, FailedCall>
        requires { 0 < length bytes.now }
        ensures bound { IfOk result (λ n. (0 < n) × (n ≤ length bytes.now)) }
        ensures bytes { WriteAppends (W.contents (end_of self.old)) (W.contents (end_of self.new))
            result bytes.now }
    {
        match self.inner.write(bytes) {
            Ok(0) => Err(FailedCall {
                is_interrupted: false,
            }),
            Ok(count) => Ok(count),
            Err(error) => Err(failed(error)),
        }
    }
}

impl Failures {
    /// No call has failed yet.
    pub(crate) fn new() -> Failures
        ensures { number_of result ≡ 0 }
    {
        Failures { number: 0 }
    }

    /// How many have failed.
    pub(crate) fn number(&self) -> u64
        ensures { result ≡ number_of self.now }
    {
        self.number
    }

    /// Counts the call: one more, or the greatest value still.
    pub(crate) fn count(&mut self, call: FailedCall) -> CountedCall
        ensures one_more { number_of self.new ≡ min (number_of self.old + 1) (2 ^ 64 - 1) }
        ensures grows { number_of self.old ≤ number_of self.new }
        ensures same { IsThatCall call result }
    {
        let FailedCall { is_interrupted } = call;
        self.number = self.number.saturating_add(1);
        CountedCall { is_interrupted }
    }
}

impl CountedCall {
    /// Whether the call was interrupted, and may be made again.
    pub(crate) fn is_interrupted(&self) -> bool
        ensures { result ≡ was_interrupted self.now }
    {
        self.is_interrupted
    }

    /// The refusal of a run whose reader failed in this way.
    pub(crate) fn of_reader(self) -> RunError
        ensures { result ≡ errors.Read }
    {
        RunError::Read
    }

    /// The refusal of a run whose writer failed in this way.
    pub(crate) fn of_writer(self) -> RunError
        ensures { result ≡ errors.Write }
    {
        RunError::Write
    }
}
