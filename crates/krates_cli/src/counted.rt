//! Readers and writers whose failed calls are counted.

ghost use Rattle.std.specs.Prelude.{◌≡◌, ◌-◌, ◌<◌, ◌≤◌, ◌^◌, [], true, IfErr, IfOk, IfSome, OnErr, OnOk, length};
ghost use Rattle.std.specs.Io.KnownBytes.{Appends, IsAtEnd, ReadConsumes, WriteAppends};
ghost use Rattle.krates_cli.specs.Counted.{AppendsFront, HasFailed, IsReadFailure, IsWriteFailure, failures_of, inner_of};
ghost use Rattle.krates_cli.specs.FailedCall.{was_interrupted};

use crate::failed_call::{CountedCall, Endpoint, Failures};
use crate::run_error::RunError;
use std::alloc::Global;
use std::io::{Read, Write};

/// A reader or a writer, and the number of its failed calls, which stays at its greatest value.
#[derive(Drop)]
pub struct Counted<T> {
    inner: Endpoint<T>,
    failures: Failures,
}

impl<T> Counted<T> {
    /// The reader or writer, of which no call has failed yet. Time O(1).
    pub fn new(inner: T) -> Counted<T>
        ensures inner { inner_of result ≡ inner }
        ensures none { failures_of result ≡ 0 }
    {
        Counted {
            inner: Endpoint::new(inner),
            failures: Failures::new(),
        }
    }

    /// How many calls have failed; a write that took no byte is one of them. Time O(1).
    pub fn failures(&self) -> u64
        ensures { result ≡ failures_of self.now }
    {
        self.failures.number()
    }

    /// The reader or writer itself. Time O(1).
    pub fn get_ref(&self) -> &T
        ensures { result.now ≡ inner_of self.now }
    {
        self.inner.get_ref()
    }
}

impl<R: Read> Counted<R> {
    /// One read into the front of the buffer, repeated as long as it is interrupted; returns how many bytes came.
    fn read(&mut self, buffer: &mut [u8]) -> Result<usize, CountedCall>
        ensures bound { IfOk result (λ n. n ≤ length buffer.new) }
        ensures bytes { ReadConsumes (R.remaining (inner_of self.old))
            (R.remaining (inner_of self.new)) result buffer.new }
        ensures failed { OnErr result (HasFailed self.old self.new) }
        ensures made_again { IfErr result (λ call. was_interrupted call ≡ true
            → failures_of self.new ≡ 2 ^ 64 - 1) }
        ensures grows { failures_of self.old ≤ failures_of self.new }
    {
        let mut turns = 0u64;
        loop {
            let call = match self.inner.read_once(buffer) {
                Ok(count) => return Ok(count),
                Err(call) => self.failures.count(call),
            };
            if turns == u64::MAX || !call.is_interrupted() {
                return Err(call);
            }
            turns += 1;
        }
    }

    /// All bytes that are left to read. A call that was interrupted is counted as failed, and repeated.
    ///
    /// It is refused as `Read` where a call failed, or as `Memory`; what was read before is then lost. Time O(bytes).
    pub fn read_to_end(&mut self, alloc: Global) -> Result<Vec<u8>, RunError>
        ensures all { IfOk result
            (λ bytes. IfSome (R.remaining (inner_of self.old)) (λ left. bytes.items ≡ left)) }
        ensures end { OnOk result (IsAtEnd (R.remaining (inner_of self.new))) }
        ensures failed { IfErr result (IsReadFailure self.old self.new) }
        ensures grows { failures_of self.old ≤ failures_of self.new }
    {
        let mut bytes = Vec::new(alloc);
        let mut buffer = [0u8; 16384];
        loop {
            let count = match self.read(&mut buffer) {
                Ok(count) => count,
                Err(call) => return Err(call.of_reader()),
            };
            if count == 0 {
                // what is read comes after these bytes
                bytes.shrink_to_fit();
                return Ok(bytes);
            }
            bytes.extend_from_slice(&buffer[..count])?;
        }
    }
}

impl<W: Write> Counted<W> {
    /// One write of the front of the bytes, repeated as long as it is interrupted; returns how many bytes were taken.
    fn write(&mut self, bytes: &[u8]) -> Result<usize, CountedCall>
        requires { 0 < length bytes.now }
        ensures bound { IfOk result (λ n. (0 < n) × (n ≤ length bytes.now)) }
        ensures bytes { WriteAppends (W.contents (inner_of self.old))
            (W.contents (inner_of self.new)) result bytes.now }
        ensures failed { OnErr result (HasFailed self.old self.new) }
        ensures made_again { IfErr result (λ call. was_interrupted call ≡ true
            → failures_of self.new ≡ 2 ^ 64 - 1) }
        ensures grows { failures_of self.old ≤ failures_of self.new }
    {
        let mut turns = 0u64;
        loop {
            let call = match self.inner.write_once(bytes) {
                Ok(count) => return Ok(count),
                Err(call) => self.failures.count(call),
            };
            if turns == u64::MAX || !call.is_interrupted() {
                return Err(call);
            }
            turns += 1;
        }
    }

    /// Writes all the bytes. A call that was interrupted is counted as failed, and repeated.
    ///
    /// It is refused as `Write` where a call failed or took no byte; a beginning of the bytes is written then. Where there are no
    /// bytes, no call is made. Time O(bytes).
    pub fn write_all(&mut self, bytes: &[u8]) -> Result<(), RunError>
        ensures written { OnOk result (Appends (W.contents (inner_of self.old))
            (W.contents (inner_of self.new)) bytes.now) }
        ensures failed { IfErr result (IsWriteFailure self.old self.new) }
        ensures beginning { OnErr result
            (AppendsFront (W.contents (inner_of self.old)) (W.contents (inner_of self.new)) bytes.now) }
        ensures nothing { bytes.now ≡ [] → self.new ≡ self.old }
        ensures grows { failures_of self.old ≤ failures_of self.new }
    {
        let mut rest = bytes;
        while !rest.is_empty() {
            let count = match self.write(rest) {
                Ok(count) => count,
                Err(call) => return Err(call.of_writer()),
            };
            rest = &rest[count..];
        }
        Ok(())
    }
}
