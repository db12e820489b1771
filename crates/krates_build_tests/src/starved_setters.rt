//! The builder's setters that append, each called on a builder on which it was called before.

use crate::real_documents::metadata_of;
use krates::derive::check;
use krates::{Builder, PkgSpec, Target};
use krates_samples::facts::steps_of;
use krates_samples::settings::{package_specs, targets_of, words_of};
use krates_samples::starving::{Call, granted, refused, starved};
use krates_text::text::Text;
use std::alloc::Global;
use std::mem::replace;
use std::test::Fail;

/// Two members, of which the first needs two crates, the second of these on Windows alone.
static LINE: &str = "a b c&on=cfg(windows)|b|c|d / members a d";

/// The steps by which the edge from the first crate to another is kept, or another as a root.
static STEPS: &[(&str, &str)] = &[
    ("b", "1 +a; 5 a>b 0"),
    ("c", "1 +a; 5 a>c::cfg(windows) 0"),
    ("d", "1 +d"),
];

/// Whether these steps follow under what the builder has set.
fn follow(alloc: Global, builder: &Builder, steps: &str) -> Result<bool, Fail> {
    let steps = steps_of(alloc, steps)?;
    let metadata = metadata_of(alloc, LINE)?;
    Ok(check(&metadata, builder, None, &steps).is_ok())
}

/// What is kept under what the builder has set: `b` and `c` where the edge to that crate is, `d` where that is a root.
fn kept(alloc: Global, builder: &Builder) -> Result<String, Fail> {
    let mut text = Text::new(alloc);
    for &(krate, steps) in STEPS {
        if follow(alloc, builder, steps)? {
            text.push_str(krate);
        }
    }
    Ok(text.whole()?)
}

/// A setter.
#[derive(Debug)]
enum Setter {
    Exclude,
    IncludeTargets,
    IncludeCrates,
}

/// What a setter appends.
#[derive(Drop)]
enum More {
    Specs(Vec<PkgSpec>),
    Targets(Vec<(Target, Vec<String>)>),
    Paths(Vec<&'static str>),
}

impl More {
    /// What the setter appends that is called with this text.
    fn new(alloc: Global, setter: &Setter, text: &'static str) -> Result<More, Fail> {
        match setter {
            Setter::Exclude => Ok(More::Specs(package_specs(alloc, text)?)),
            Setter::IncludeTargets => Ok(More::Targets(targets_of(alloc, text)?)),
            Setter::IncludeCrates => Ok(More::Paths(words_of(alloc, text)?)),
        }
    }

    /// Calls the setter, and returns whether there was enough memory.
    fn is_set(self, builder: &mut Builder) -> bool {
        match self {
            More::Specs(specs) => builder.exclude(specs).is_ok(),
            More::Targets(targets) => builder.include_targets(targets).is_ok(),
            More::Paths(paths) => builder.include_workspace_crates(&paths).is_ok(),
        }
    }
}

/// A setter, what it was called with, and what is kept then; what it is called with, and what is kept by both.
#[derive(Debug)]
struct Set {
    setter: Setter,
    text: &'static str,
    kept: &'static str,
    more: &'static str,
    kept_by_both: &'static str,
}

/// The builder's setters that append.
static SETTERS: &[Set] = &[
    Set {
        setter: Setter::Exclude,
        text: "c",
        kept: "bd",
        more: "b e f g h i j k l",
        kept_by_both: "d",
    },
    Set {
        setter: Setter::IncludeTargets,
        text: "x86_64-unknown-linux-gnu",
        kept: "bd",
        more: "x86_64-pc-windows-msvc b c d e f g h i",
        kept_by_both: "bcd",
    },
    Set {
        setter: Setter::IncludeCrates,
        text: "/w/a",
        kept: "bc",
        more: "/w/b /w/c /w/d /w/e",
        kept_by_both: "bcd",
    },
];

/// A builder, and what is appended to what it has set.
#[derive(Drop)]
struct Setting {
    builder: Builder,
    more: More,
}

impl Call for Set {
    type Given = Setting;

    type Answer = bool;

    fn given(&self, alloc: Global) -> Result<Setting, Fail> {
        let set = More::new(alloc, &self.setter, self.text)?;
        let more = More::new(alloc, &self.setter, self.more)?;
        let mut builder = Builder::new(alloc);
        if set.is_set(&mut builder) {
            return Ok(Setting { builder, more });
        }
        Err(Fail::new("no builder"))
    }

    fn answer(&self, alloc: Global, given: &mut Setting) -> bool {
        let nothing = More::Paths(Vec::new(alloc));
        replace(&mut given.more, nothing).is_set(&mut given.builder)
    }

    fn is_granted(&self, alloc: Global, given: &mut Setting, answer: &bool) -> Result<bool, Fail> {
        let kept = kept(alloc, &given.builder)?;
        if *answer {
            return granted(kept.as_str() == self.kept_by_both);
        }
        refused(kept.as_str() == self.kept)
    }
}

#[test]
fn setters_of_a_builder(rt: HostRuntime) -> Result<(), Fail> {
    starved(&rt, SETTERS)
}
