//! What a package builds.

/// A target of a package: a library, a program, a test or another thing that it builds
/// (Cargo Book, "Cargo Targets").
#[derive(Debug, Drop)]
pub struct Target {
    /// The name of the target.
    pub name: String,
    /// What is built: several kinds for a library of several forms.
    pub kind: Vec<TargetKind>,
    /// The forms in which the compiler writes it.
    pub crate_types: Vec<CrateType>,
    /// The features without which the target isn't built.
    pub required_features: Vec<String>,
    /// The path of the root source file.
    pub src_path: String,
    /// The edition of Rust that it is written in.
    pub edition: Edition,
    /// Whether its documentation tests are run.
    pub doctest: bool,
    /// Whether its tests are built and run.
    pub test: bool,
    /// Whether it is documented.
    pub doc: bool,
}

/// What a target is.
#[derive(Clone, Copy, Debug, PartialEq, Eq, PartialOrd, Ord, Hash)]
pub enum TargetKind {
    /// A benchmark, `bench`.
    Bench,
    /// A program, `bin`.
    Bin,
    /// A build script, `custom-build`.
    CustomBuild,
    /// A dynamic library for other languages, `cdylib`.
    CDyLib,
    /// A dynamic library for Rust, `dylib`.
    DyLib,
    /// An example, `example`.
    Example,
    /// A library, `lib`.
    Lib,
    /// A library of procedural macros, `proc-macro`.
    ProcMacro,
    /// A library for Rust, `rlib`.
    RLib,
    /// A static library for other languages, `staticlib`.
    StaticLib,
    /// An integration test, `test`.
    Test,
}

/// The form of what the compiler writes (Rust Reference, "Linkage").
#[derive(Clone, Copy, Debug, PartialEq, Eq, PartialOrd, Ord, Hash)]
pub enum CrateType {
    /// A program, `bin`.
    Bin,
    /// A dynamic library for other languages, `cdylib`.
    CDyLib,
    /// A dynamic library for Rust, `dylib`.
    DyLib,
    /// A library in the form that the compiler prefers, `lib`.
    Lib,
    /// A library of procedural macros, `proc-macro`.
    ProcMacro,
    /// A library for Rust, `rlib`.
    RLib,
    /// A static library for other languages, `staticlib`.
    StaticLib,
}

/// The edition of Rust that a package or target is written in.
#[derive(Clone, Copy, Debug, PartialEq, Eq, PartialOrd, Ord, Hash)]
pub enum Edition {
    /// `2015`
    E2015,
    /// `2018`
    E2018,
    /// `2021`
    E2021,
    /// `2024`
    E2024,
}
