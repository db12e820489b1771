//! A host on which no program can be started, for runs that need none, and for those that need one in vain.

use std::alloc::Allocator;
use std::io;
use std::io::ErrorKind;
use std::process::{Child, Command, ExitStatus, OpenProcess, Processes, Stdio};

/// Programs that aren't found.
#[derive(Drop)]
pub(crate) struct NoPrograms;

/// A program that was started: there is none.
#[derive(Drop)]
pub(crate) struct Started;

impl OpenProcess for Started {
    type Stdin = Vec<u8>;

    type Stdout = &'static [u8];

    type Stderr = &'static [u8];

    fn id(&self) -> u32 {
        0
    }

    fn wait(&mut self) -> io::Result<ExitStatus> {
        Err(io::Error::from(ErrorKind::Unsupported))
    }
}

impl Processes for NoPrograms {
    type Started = Started;

    fn spawn<B: Allocator + Clone>(
        &self,
        _command: &Command<B>,
        _stdin: &Stdio,
        _stdout: &Stdio,
        _stderr: &Stdio,
    ) -> io::Result<Child<Started>> {
        Err(io::Error::from(ErrorKind::NotFound))
    }
}
