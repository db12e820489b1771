//! Which options are known, and what help says about them.

/// What an option takes.
#[derive(Clone, Copy)]
pub(crate) enum Takes {
    /// Nothing: it is set or not.
    Nothing,
    /// One value, which help calls by this name.
    One(&'static str),
    /// One value at each of its uses, which help calls by this name.
    Each(&'static str),
    /// One of these values, which help calls by this name.
    OneOf(&'static str, &'static [&'static str]),
    /// The name of rules.
    Rules,
    /// Kinds of dependencies at each of its uses, as `cargo tree` names them.
    Edges,
    /// A kind of dependency at each of its uses.
    Kind,
    /// A number, which help calls by this name.
    Number(&'static str),
    /// Nothing behind it: it is itself a value, that of an argument behind the word, which may have to be there.
    Argument { is_required: bool },
    /// The same, one of these values.
    ArgumentOf(&'static [&'static str]),
    /// A file, in place of what cargo is told.
    Document,
    /// A file that has to be there.
    Certified,
}

/// An option.
#[derive(Clone, Copy)]
pub(crate) struct KnownOption {
    /// The name after `--`, by which it is read back.
    pub(crate) name: &'static str,
    /// The letter after `-`.
    pub(crate) short: Option<char>,
    /// What it takes.
    pub(crate) takes: Takes,
    /// What it does.
    pub(crate) help: &'static str,
}

impl KnownOption {
    /// Whether it is itself a value, that of an argument behind the word.
    pub(crate) fn is_argument(&self) -> bool {
        matches!(self.takes, Takes::Argument { .. } | Takes::ArgumentOf(_))
    }

    /// Whether a value follows its name.
    pub(crate) fn takes_value(&self) -> bool {
        !self.is_argument() && !matches!(self.takes, Takes::Nothing)
    }
}

/// Options under one heading of help.
#[derive(Clone, Copy)]
pub(crate) struct Group {
    /// The heading; none for that of all options.
    pub(crate) heading: Option<&'static str>,
    /// The options, in their order.
    pub(crate) options: &'static [KnownOption],
}

/// An option that one of the rules knows alone.
#[derive(Clone, Copy)]
pub(crate) struct OwnOption {
    /// The option.
    pub(crate) option: KnownOption,
    /// Why the other rules refuse it, and what to write instead.
    pub(crate) refusal: &'static str,
}

/// A package after a word, which may be left out.
pub(crate) const MAYBE_KRATE: KnownOption = KnownOption {
    name: "SPEC",
    short: None,
    takes: Takes::Argument { is_required: false },
    help: "The package: its name, NAME@VERSION, or its id",
};

/// A package after a word.
pub(crate) const KRATE: KnownOption = KnownOption {
    takes: Takes::Argument { is_required: true },
    ..MAYBE_KRATE
};

/// The document of before, after a word.
pub(crate) const OLD: KnownOption = KnownOption {
    name: "OLD",
    short: None,
    takes: Takes::Argument { is_required: true },
    help: "The document of before, in a file as --metadata takes it",
};

/// Says by the status whether two documents differ.
pub(crate) const EXIT_CODE: KnownOption = KnownOption {
    name: "exit-code",
    short: None,
    takes: Takes::Nothing,
    help: "End with status 1 where anything differs",
};

/// Requests JSON.
pub(crate) const JSON: KnownOption = KnownOption {
    name: "json",
    short: None,
    takes: Takes::Nothing,
    help: "Print JSON, for scripts",
};

/// By which rules.
const BY: KnownOption = KnownOption {
    name: "by",
    short: None,
    takes: Takes::Rules,
    help: "Answer by these rules: build, for what cargo builds,{n}or krates, for the graph of the Rust crate krates",
};

const RESOLVER: KnownOption = KnownOption {
    name: "resolver",
    short: None,
    takes: Takes::OneOf("VERSION", &["1", "2", "3"]),
    help: "By build: the version of the resolver, 1, 2 or 3 [default: what the workspace's Cargo.toml says]",
};

const OF_RULES: [KnownOption; 2] = [BY, RESOLVER];

const WORKSPACE: KnownOption = KnownOption {
    name: "workspace",
    short: None,
    takes: Takes::Nothing,
    help: "Start from every member, also where the workspace has a root package",
};

const PACKAGE: KnownOption = KnownOption {
    name: "package",
    short: Some('p'),
    takes: Takes::Each("SPEC|PATH"),
    help: "Start from the packages that SPEC fits; with --by krates from the member in the directory PATH,{n}which is absolute; may be repeated",
};

const OF_PACKAGES: [KnownOption; 2] = [WORKSPACE, PACKAGE];

const LIB: KnownOption = KnownOption {
    name: "lib",
    short: None,
    takes: Takes::Nothing,
    help: "By build: the library",
};

const BINS: KnownOption = KnownOption {
    name: "bins",
    short: None,
    takes: Takes::Nothing,
    help: "By build: the programs",
};

const TESTS: KnownOption = KnownOption {
    name: "tests",
    short: None,
    takes: Takes::Nothing,
    help: "By build: all targets that have tests",
};

const EXAMPLES: KnownOption = KnownOption {
    name: "examples",
    short: None,
    takes: Takes::Nothing,
    help: "By build: the examples",
};

const BENCHES: KnownOption = KnownOption {
    name: "benches",
    short: None,
    takes: Takes::Nothing,
    help: "By build: all targets that have benchmarks",
};

const ALL_TARGETS: KnownOption = KnownOption {
    name: "all-targets",
    short: None,
    takes: Takes::Nothing,
    help: "By build: all of these",
};

const OF_KINDS: [KnownOption; 6] = [LIB, BINS, TESTS, EXAMPLES, BENCHES, ALL_TARGETS];

const EDGES: KnownOption = KnownOption {
    name: "edges",
    short: Some('e'),
    takes: Takes::Edges,
    help: "With --by krates: follow these kinds of dependencies, with commas between them:{n}normal, build, dev, all; or all but no-normal, no-build, no-dev",
};

const IGNORE_KIND: KnownOption = KnownOption {
    name: "ignore-kind",
    short: None,
    takes: Takes::Kind,
    help: "With --by krates: follow no dependencies of this kind: normal, build, dev; may be repeated",
};

const EXCLUDE: KnownOption = KnownOption {
    name: "exclude",
    short: None,
    takes: Takes::Each("SPEC"),
    help: "With --by krates: leave out the packages that this fits, as serde@1.0.152; may be repeated",
};

const ALL_NAMED: KnownOption = KnownOption {
    name: "all-named",
    short: None,
    takes: Takes::Nothing,
    help: "With --by krates: let dep:NAME and NAME/FEATURE mean every dependency of that name",
};

const OF_DEPENDENCIES: [KnownOption; 4] = [EDGES, IGNORE_KIND, EXCLUDE, ALL_NAMED];

const OF_FEATURES: [KnownOption; 3] = [
    KnownOption {
        name: "features",
        short: Some('F'),
        takes: Takes::Each("FEATURES"),
        help: "Enable these features, between commas or blanks; may be repeated",
    },
    KnownOption {
        name: "all-features",
        short: None,
        takes: Takes::Nothing,
        help: "Enable all features",
    },
    KnownOption {
        name: "no-default-features",
        short: None,
        takes: Takes::Nothing,
        help: "Leave out the feature `default`",
    },
];

/// Which features. By the rules of krates they are for cargo.
pub(crate) static FEATURE_OPTIONS: [KnownOption; 3] = OF_FEATURES;

const TARGET: KnownOption = KnownOption {
    name: "target",
    short: None,
    takes: Takes::Each("TRIPLE"),
    help: "Answer for a build for this target, by default the machine that builds;{n}with --by krates keep only what passes for it, by default all; may be repeated",
};

const CFG: KnownOption = KnownOption {
    name: "cfg",
    short: None,
    takes: Takes::Each("FILE"),
    help: "Take what `rustc --print cfg --target TRIPLE` printed from this file,{n}for the --target in the same place; may be repeated",
};

const HOST: KnownOption = KnownOption {
    name: "host",
    short: None,
    takes: Takes::One("TRIPLE"),
    help: "By build: the machine that builds, where build scripts and proc-macros run [default: that of rustc]",
};

const HOST_CFG: KnownOption = KnownOption {
    name: "host-cfg",
    short: None,
    takes: Takes::One("FILE"),
    help: "By build: take from this file what `rustc --print cfg` printed for the machine that builds",
};

const OF_MACHINES: [KnownOption; 4] = [TARGET, CFG, HOST, HOST_CFG];

const OF_CARGO: [KnownOption; 4] = [
    KnownOption {
        name: "manifest-path",
        short: None,
        takes: Takes::One("PATH"),
        help: "Ask for the workspace of this Cargo.toml",
    },
    KnownOption {
        name: "locked",
        short: None,
        takes: Takes::Nothing,
        help: "Refuse a Cargo.lock that isn't up to date",
    },
    KnownOption {
        name: "offline",
        short: None,
        takes: Takes::Nothing,
        help: "Don't use the network",
    },
    KnownOption {
        name: "frozen",
        short: None,
        takes: Takes::Nothing,
        help: "Both --locked and --offline",
    },
];

/// The options that cargo is given by either rules. No document takes them that is read from elsewhere.
pub(crate) static CARGO_OPTIONS: [KnownOption; 4] = OF_CARGO;

/// The options of the rules of a build alone, and why those of krates refuse each.
pub(crate) static OF_BUILDS: [OwnOption; 11] = [
    OwnOption {
        option: RESOLVER,
        refusal: "'--resolver <VERSION>' is known by build alone: leave '--by krates' out",
    },
    OwnOption {
        option: LIB,
        refusal: "'--lib' is known by build alone: leave '--by krates' out",
    },
    OwnOption {
        option: BINS,
        refusal: "'--bins' is known by build alone: leave '--by krates' out",
    },
    OwnOption {
        option: TESTS,
        refusal: "'--tests' is known by build alone: leave '--by krates' out; by krates, tests count without '--ignore-kind dev'",
    },
    OwnOption {
        option: EXAMPLES,
        refusal: "'--examples' is known by build alone: leave '--by krates' out; by krates, examples count without '--ignore-kind dev'",
    },
    OwnOption {
        option: BENCHES,
        refusal: "'--benches' is known by build alone: leave '--by krates' out; by krates, benchmarks count without '--ignore-kind dev'",
    },
    OwnOption {
        option: ALL_TARGETS,
        refusal: "'--all-targets' is known by build alone: leave '--by krates' out; by krates, all targets count without '--ignore-kind dev'",
    },
    OwnOption {
        option: HOST,
        refusal: "'--host <TRIPLE>' is known by build alone: leave '--by krates' out; by krates, '--target <TRIPLE>' keeps what that machine needs",
    },
    OwnOption {
        option: HOST_CFG,
        refusal: "'--host-cfg <FILE>' is known by build alone: leave '--by krates' out; by krates, '--target <TRIPLE>' and '--cfg <FILE>' describe a machine",
    },
    OwnOption {
        option: SIDE,
        refusal: "'--side <SIDE>' is known by build alone: leave '--by krates' out",
    },
    OwnOption {
        option: UNITS,
        refusal: "'--units' is known by build alone: leave '--by krates' out",
    },
];

/// The options of the rules of krates alone, and why those of a build refuse each.
pub(crate) static OF_KRATES: [OwnOption; 4] = [
    OwnOption {
        option: EDGES,
        refusal: "'--edges <KINDS>' is known by krates alone: write '--by krates' too; by build, dev dependencies count where '--tests', '--examples', '--benches' or '--all-targets' asks for them",
    },
    OwnOption {
        option: IGNORE_KIND,
        refusal: "'--ignore-kind <KIND>' is known by krates alone: write '--by krates' too; by build, dev dependencies count where '--tests', '--examples', '--benches' or '--all-targets' asks for them",
    },
    OwnOption {
        option: EXCLUDE,
        refusal: "'--exclude <SPEC>' is known by krates alone: write '--by krates' too; by build, name by '--package <SPEC>' what is built",
    },
    OwnOption {
        option: ALL_NAMED,
        refusal: "'--all-named' is known by krates alone: write '--by krates' too; by build, names mean what they mean to cargo",
    },
];

/// The document that is read instead of running cargo.
const METADATA: KnownOption = KnownOption {
    name: "metadata",
    short: None,
    takes: Takes::Document,
    help: "Read the output of `cargo metadata --format-version 1` from this file,{n}or from standard input for `-`, in place of running cargo",
};

/// How much is read.
const MAX_BYTES: KnownOption = KnownOption {
    name: "max-bytes",
    short: None,
    takes: Takes::Number("BYTES"),
    help: "Refuse a file, standard input, or what a program prints{n}where it is longer [default: 4294967296]",
};

/// Leaves notes out.
const QUIET: KnownOption = KnownOption {
    name: "quiet",
    short: Some('q'),
    takes: Takes::Nothing,
    help: "Print no notes",
};

/// When there are colours.
const COLOR: KnownOption = KnownOption {
    name: "color",
    short: None,
    takes: Takes::OneOf("WHEN", &["auto", "always", "never"]),
    help: "Print in colours: auto, always, never [default: auto, on a terminal, unless NO_COLOR is set]",
};

/// The document against which a certificate is checked.
const DOCUMENT: KnownOption = KnownOption {
    name: "metadata",
    short: None,
    takes: Takes::Certified,
    help: "The document: the output of `cargo metadata --format-version 1` in this file",
};

/// Prints ids.
pub(crate) const IDS: KnownOption = KnownOption {
    name: "ids",
    short: None,
    takes: Takes::Nothing,
    help: "Print package ids in place of names and versions",
};

/// Answers for a side.
pub(crate) const SIDE: KnownOption = KnownOption {
    name: "side",
    short: None,
    takes: Takes::OneOf("SIDE", &["host", "target"]),
    help: "By build: answer for what is built for the host, where build scripts and proc-macros run,{n}or for the target: host, target",
};

/// Prints units.
pub(crate) const UNITS: KnownOption = KnownOption {
    name: "units",
    short: None,
    takes: Takes::Nothing,
    help: "By build: print below each crate which of its targets are compiled, and for what",
};

/// Turns a tree round.
pub(crate) const INVERT: KnownOption = KnownOption {
    name: "invert",
    short: Some('i'),
    takes: Takes::One("SPEC"),
    help: "Draw which crates need this package, as `dependents` does",
};

/// Draws a part of a tree.
pub(crate) const DEPTH: KnownOption = KnownOption {
    name: "depth",
    short: None,
    takes: Takes::Number("DEPTH"),
    help: "Draw no crate deeper than this below a root",
};

/// Leaves packages out of a tree.
pub(crate) const PRUNE: KnownOption = KnownOption {
    name: "prune",
    short: None,
    takes: Takes::Each("SPEC"),
    help: "Leave out this package, and what only it leads to; may be repeated",
};

/// Draws all again.
pub(crate) const NO_DEDUPE: KnownOption = KnownOption {
    name: "no-dedupe",
    short: None,
    takes: Takes::Nothing,
    help: "Draw what a crate leads to below each of its lines",
};

/// What stands before a crate.
pub(crate) const PREFIX: KnownOption = KnownOption {
    name: "prefix",
    short: None,
    takes: Takes::OneOf("PREFIX", &["indent", "depth", "none"]),
    help: "Write this before each crate: indent, depth, none [default: indent]",
};

/// By which characters branches are drawn.
pub(crate) const CHARSET: KnownOption = KnownOption {
    name: "charset",
    short: None,
    takes: Takes::OneOf("CHARSET", &["utf8", "ascii"]),
    help: "Draw branches by these characters: utf8, ascii [default: utf8]",
};

/// How a crate is written.
pub(crate) const FORMAT: KnownOption = KnownOption {
    name: "format",
    short: Some('f'),
    takes: Takes::One("FORMAT"),
    help: "Write crates so: {p} is the package, {l} its licence, {r} its repository, {f} its features [default: {p}]",
};

/// In which version a bill of materials is written.
pub(crate) const SPEC_VERSION: KnownOption = KnownOption {
    name: "spec-version",
    short: None,
    takes: Takes::OneOf("VERSION", &["1.5", "1.6"]),
    help: "Write CycloneDX of this version: 1.5, 1.6 [default: 1.5]",
};

/// When a bill of materials was made.
pub(crate) const TIMESTAMP: KnownOption = KnownOption {
    name: "timestamp",
    short: None,
    takes: Takes::One("TIME"),
    help: "Say that it was made at this time, in UTC, as 2026-12-01T08:00:00Z",
};

/// The serial number of a bill of materials.
pub(crate) const SERIAL: KnownOption = KnownOption {
    name: "serial",
    short: None,
    takes: Takes::One("UUID"),
    help: "Give it this serial number",
};

/// Prints steps.
pub(crate) const STEPS: KnownOption = KnownOption {
    name: "steps",
    short: None,
    takes: Takes::Nothing,
    help: "Print the steps of the derivation, a line for each",
};

/// Draws a picture for Graphviz.
pub(crate) const DOT: KnownOption = KnownOption {
    name: "dot",
    short: None,
    takes: Takes::Nothing,
    help: "Print a picture in the language DOT, which Graphviz draws",
};

/// Draws a picture for Mermaid.
pub(crate) const MERMAID: KnownOption = KnownOption {
    name: "mermaid",
    short: None,
    takes: Takes::Nothing,
    help: "Print a picture in the language of Mermaid, which many pages of Markdown draw",
};

/// A shell, after a word.
pub(crate) const SHELL: KnownOption = KnownOption {
    name: "SHELL",
    short: None,
    takes: Takes::ArgumentOf(&["bash", "zsh", "fish"]),
    help: "The shell: bash, zsh, fish",
};

/// Certifies all.
pub(crate) const ALL: KnownOption = KnownOption {
    name: "all",
    short: None,
    takes: Takes::Nothing,
    help: "Certify all that is built, in place of one crate",
};

const RULES: Group = Group {
    heading: Some("Which rules"),
    options: &OF_RULES,
};

const PACKAGES: Group = Group {
    heading: Some("Which packages"),
    options: &OF_PACKAGES,
};

const TARGET_KINDS: Group = Group {
    heading: Some("Which of their targets"),
    options: &OF_KINDS,
};

const DEPENDENCIES: Group = Group {
    heading: Some("Which dependencies"),
    options: &OF_DEPENDENCIES,
};

const FEATURES: Group = Group {
    heading: Some("Which features"),
    options: &OF_FEATURES,
};

const MACHINES: Group = Group {
    heading: Some("Which machines"),
    options: &OF_MACHINES,
};

const LIMITS: Group = Group {
    heading: Some("How much is read"),
    options: &[MAX_BYTES],
};

const FOR_PEOPLE: Group = Group {
    heading: Some("How it is printed"),
    options: &[QUIET, COLOR],
};

const TOLD_TO_CARGO: Group = Group {
    heading: Some("What cargo is told"),
    options: &OF_CARGO,
};

const IN_PLACE_OF_CARGO: Group = Group {
    heading: Some("In place of cargo"),
    options: &[METADATA],
};

/// What each word takes.
pub(crate) static FOR_ANSWERS: [Group; 10] = [
    RULES,
    PACKAGES,
    TARGET_KINDS,
    DEPENDENCIES,
    FEATURES,
    MACHINES,
    TOLD_TO_CARGO,
    IN_PLACE_OF_CARGO,
    LIMITS,
    FOR_PEOPLE,
];

/// What the program takes that checks certificates.
pub(crate) static FOR_CERTIFICATES: [Group; 9] = [
    Group {
        heading: None,
        options: &[DOCUMENT],
    },
    RULES,
    PACKAGES,
    TARGET_KINDS,
    DEPENDENCIES,
    FEATURES,
    MACHINES,
    LIMITS,
    FOR_PEOPLE,
];
