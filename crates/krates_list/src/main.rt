//! `krates-list`: reads the document of `cargo metadata --format-version 1` from standard input, or runs cargo for it, and writes
//! a line for each package: `+ ` and its id where it is kept, `- ` and its id where nothing needs it.
#![tactic(auto)]

use krates_cli::{Counted, program, refuse_words};
use std::process::ExitCode;
use std::{env, io};

/// The words after the program's name.
fn words_of(rt: &HostRuntime) -> io::Result<Vec<String>> {
    let mut words = Vec::new(rt.alloc());
    for word in env::args(rt)?.skip(1) {
        words.push(word)?;
    }
    Ok(words)
}

/// The size up to which blocks of memory are used again, in bytes.
const LARGEST_BLOCK: usize = 1 << 24;

/// Makes the allocator keep large blocks that are freed. glibc's returns each to the system until one as large was freed,
/// and the graph would then be built in new pages instead of those of the text.
fn keep_large_blocks(rt: &HostRuntime) {
    drop(Vec::<u8>::with_capacity(rt.alloc(), LARGEST_BLOCK));
}

/// Passes the words and the standard streams to the program.
fn main(rt: HostRuntime) -> ExitCode {
    keep_large_blocks(&rt);
    let mut input = Counted::new(rt.reader());
    let mut output = Counted::new(rt.stdout());
    let mut errors = Counted::new(rt.stderr());
    let status = match words_of(&rt) {
        Ok(words) => program(words.as_slice(), &mut input, &mut output, &mut errors, &rt),
        Err(error) => refuse_words(&error, &mut errors),
    };
    ExitCode::from(status)
}
