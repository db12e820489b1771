//! The status of a program: 0 for an answer or a yes, 1 for a no, 2 for wrong words, and 3 where there is no answer.

ghost use Rattle.std.specs.Prelude.{◌≡◌};
ghost use Rattle.krates_host.specs.Status.{answer_status, is_delivered};

use std::io;

/// The answer is no.
pub const NO: u8 = 1;

/// The words are wrong.
pub const WRONG: u8 = 2;

/// There is no answer: no document, cargo or rustc, or no memory, as standard error says.
pub const NO_ANSWER: u8 = 3;

/// Whether an answer came to whom it may concern: all of it was written, or nobody reads any more.
pub(crate) fn is_delivered(written: &io::Result<()>) -> bool
    ensures { result ≡ is_delivered written.now }
{
    match written {
        Ok(()) => true,
        Err(cause) => cause.kind() == io::ErrorKind::BrokenPipe,
    }
}

/// The status of an answer after it was written, or couldn't be. A no stays a no, also where nobody reads it.
pub(crate) fn status_of(written: &io::Result<()>, is_yes: bool) -> u8
    ensures { result ≡ answer_status written.now is_yes }
{
    if !is_delivered(written) {
        NO_ANSWER
    } else if is_yes {
        0
    } else {
        NO
    }
}
