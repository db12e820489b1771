//! What holds, and how it is printed.

ghost use Rattle.std.specs.Prelude.{◌≡◌, Some};
ghost use Rattle.krates_verdict.specs.Holding.{said_last};
ghost use Rattle.krates_verdict.specs.VerdictText.{closed_text, steps_text, verdict_text};

use crate::named_fact::{NamedFact, shown};
use krates_cm::PackageId;
use std::fmt;

/// What a certificate says that holds. Its crates are named by the id texts of the document's packages.
#[derive(Debug, Drop)]
pub enum Verdict {
    /// The crate is kept: the last step of the derivation says so.
    Kept {
        /// The crate.
        krate: PackageId,
        /// How many steps the derivation has.
        steps: usize,
    },
    /// Another fact follows: that of the last step.
    Follows {
        /// The fact.
        fact: NamedFact,
        /// How many steps the derivation has.
        steps: usize,
    },
    /// No crate can be kept except those that a closed list of facts names.
    Closed {
        /// How many different crates these are; two are the same where their names, versions and sources are.
        krates: usize,
    },
}

impl Verdict {
    /// What is said by a derivation of this many steps that ends in the fact.
    pub(crate) fn of_last(fact: NamedFact, steps: usize) -> Verdict
        ensures { result ≡ said_last fact steps }
    {
        match fact {
            NamedFact::Crate(krate) => Verdict::Kept { krate, steps },
            fact => Verdict::Follows { fact, steps },
        }
    }
}

/// A number of steps.
#[derive(Clone, Copy)]
struct Steps(usize);

/// `1 step`, or the number and ` steps`.
impl fmt::Display for Steps {
    ghost output = { λ steps. Some (steps_text steps.0) };

    fn fmt<W: fmt::Write>(&self, f: &mut fmt::Formatter<W>) -> fmt::Result {
        if self.0 == 1 {
            return f.write_str("1 step");
        }
        write!(f, "{} steps", self.0)
    }
}

/// A number of crates that are all that can be reached.
#[derive(Clone, Copy)]
struct Reachable(usize);

/// `nothing but these N crates can be reached`, and for one `nothing but this 1 crate can be reached`.
impl fmt::Display for Reachable {
    ghost output = { λ krates. Some (closed_text krates.0) };

    fn fmt<W: fmt::Write>(&self, f: &mut fmt::Formatter<W>) -> fmt::Result {
        if self.0 == 1 {
            return f.write_str("nothing but this 1 crate can be reached");
        }
        write!(f, "nothing but these {} crates can be reached", self.0)
    }
}

/// `holds: ` and what holds, in one line without its end. An id is that of the document's package, never of the certificate, and each text
/// is printed as `Shown`, so that none can end the line.
///
/// ```text
/// holds: crate path+file:///w/b#0.1.0 is kept, 3 steps
/// holds: feature std of path+file:///w/b#0.1.0 follows, 1 step
/// holds: nothing but these 584 crates can be reached
/// ```
impl fmt::Display for Verdict {
    ghost output = { λ verdict. Some (verdict_text verdict) };

    fn fmt<W: fmt::Write>(&self, f: &mut fmt::Formatter<W>) -> fmt::Result {
        match self {
            Verdict::Kept { krate, steps } => {
                let krate = shown(krate);
                write!(f, "holds: crate {krate} is kept, {}", Steps(*steps))
            }
            Verdict::Follows { fact, steps } => {
                write!(f, "holds: {fact} follows, {}", Steps(*steps))
            }
            Verdict::Closed { krates } => write!(f, "holds: {}", Reachable(*krates)),
        }
    }
}
