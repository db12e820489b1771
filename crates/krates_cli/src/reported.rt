//! The lines of the packages that aren't kept.

ghost use Rattle.std.specs.Prelude.{◌≡◌, true, [], IfOk, string_bytes};
ghost use Rattle.krates_cli.specs.Reported.{Reports, lines_in, is_whole};

use crate::lines::push_line;
use krates::{OnFilter, Package};
use std::alloc::{AllocError, Global};

/// A filter that makes a line for each package that it is given, as long as there is memory.
#[derive(Drop)]
pub(crate) struct Reported {
    lines: String,
    is_whole: bool,
}

impl Reported {
    /// No package yet.
    pub(crate) fn new(alloc: Global) -> Reported
        ensures none { lines_in result ≡ [] }
    {
        Reported {
            lines: String::new(alloc),
            is_whole: true,
        }
    }

    /// The lines of all packages, unless memory ran out at one of them.
    pub(crate) fn into_lines(self) -> Result<String, AllocError>
        ensures { IfOk result (λ lines. (is_whole self ≡ true) × (string_bytes lines ≡ lines_in self)) }
    {
        let Reported { lines, is_whole } = self;
        if is_whole { Ok(lines) } else { Err(AllocError) }
    }
}

impl OnFilter for Reported {
    ghost filters = { Reports };

    fn filtered(&mut self, pkg: Package) {
        self.is_whole = self.is_whole && push_line(&mut self.lines, "- ", &pkg.id).is_ok();
    }
}
