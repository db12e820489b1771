//! The command `cargo metadata` with its settings.

ghost use Rattle.std.specs.Prelude.{◌≡◌, ◌↔◌, Some, true, IfOk, IfErr, OnErr};
ghost use Rattle.std.specs.Option.{option_map};
ghost use Rattle.std.specs.Bool.{MatchBool};
ghost use Rattle.std.specs.Borrow.{sem};
ghost use Rattle.krates_cm.specs.Document.{metadata_view, text_view, texts_view};
ghost use Rattle.krates_cm.specs.declared.error.Error.TheVariants as errors;
ghost use Rattle.krates_cm_json.specs.Parsing.{IsDocument, IsRefusal};
ghost use Rattle.krates_cargo.specs.Command.{plain_command, words};
ghost use Rattle.krates_cargo.specs.FeatureChoice.{features_view};
ghost use Rattle.krates_cargo.specs.Setters.{IsChosen, IsNotChosen, RestsCommand, choosing, with_variable};

use crate::words::{push_all, push_flag, push_listed, push_valued, push_word};
use krates_cm::{Error, Metadata};
use krates_cm_json::parse;
use krates_text::copies::four_copies;
use std::alloc::{AllocError, Global};
use std::collections::BTreeMap;
use std::marker::Model;

/// Features of the packages of the workspace (Cargo Book, "cargo metadata", "Feature Selection").
#[derive(Debug, Drop)]
pub enum Features {
    /// All of them.
    All,
    /// Not the feature `default`, unless it is named.
    NoDefault,
    /// Those with these names.
    Selected(Vec<String>),
}

impl Clone for Features {
    ghost is_clone = { λ features copy. features_view copy ≡ features_view features };

    /// A copy that is equal, name by name.
    fn clone(&self) -> Result<Features, AllocError> {
        match self {
            Features::All => Ok(Features::All),
            Features::NoDefault => Ok(Features::NoDefault),
            Features::Selected(names) => Ok(Features::Selected(names.clone()?)),
        }
    }
}

/// The command `cargo metadata`, whose output is the document, and its settings.
///
/// The setters may be called in any order. Names of features and variables of the environment are added to those that
/// are set; in everything else the last call counts. Each returns the command, so that calls chain. Those that add
/// can run out of memory, and then leave the command as it was.
///
/// ```text
/// let mut command = MetadataCommand::new(alloc);
/// command.no_deps().manifest_path(path).env("RUSTC", "rustc")?;
/// let metadata = command.exec(Some("cargo"), rt)?;
/// ```
#[derive(Debug, Drop)]
pub struct MetadataCommand {
    pub(crate) alloc: Global,
    pub(crate) cargo_path: Option<String>,
    manifest_path: Option<String>,
    pub(crate) current_dir: Option<String>,
    features: Vec<String>,
    other_options: Vec<String>,
    pub(crate) variables: BTreeMap<String, String>,
    has_no_deps: bool,
    has_all_features: bool,
    has_no_default_features: bool,
    pub(crate) is_verbose: bool,
}

impl Model for MetadataCommand {
    ghost use Rattle.std.specs.Option.{option_map};
    ghost use Rattle.krates_cm.specs.Document.{text_view, texts_view};
    ghost use Rattle.krates_cargo.specs.Command.{CommandModel, variables_view};

    ghost Value = { CommandModel };

    ghost view = { λ c. record {
      cargo_path = option_map text_view c.cargo_path;
      manifest_path = option_map text_view c.manifest_path;
      current_dir = option_map text_view c.current_dir;
      no_deps = c.has_no_deps;
      features = texts_view c.features;
      all_features = c.has_all_features;
      no_default_features = c.has_no_default_features;
      other_options = texts_view c.other_options;
      variables = variables_view c.variables;
      verbose = c.is_verbose;
    } };
}

impl Clone for MetadataCommand {
    ghost is_clone = { λ command copy. copy ≡ command };

    /// A copy that is equal in all that is set.
    fn clone(&self) -> Result<MetadataCommand, AllocError> {
        let places = four_copies(
            &self.cargo_path,
            &self.manifest_path,
            &self.current_dir,
            &self.features,
        )?;
        let other_options = self.other_options.clone()?;
        let variables = self.variables.clone()?;
        Ok(MetadataCommand {
            alloc: self.alloc,
            cargo_path: places.0,
            manifest_path: places.1,
            current_dir: places.2,
            features: places.3,
            other_options,
            variables,
            has_no_deps: self.has_no_deps,
            has_all_features: self.has_all_features,
            has_no_default_features: self.has_no_default_features,
            is_verbose: self.is_verbose,
        })
    }
}

impl MetadataCommand {
    /// The command with nothing set: `cargo metadata --format-version 1` in the directory of this process. Time O(1).
    ///
    /// ```text
    /// let mut command = MetadataCommand::new(alloc);
    /// ```
    pub fn new(alloc: Global) -> MetadataCommand
        ensures { result ≡ plain_command }
    {
        MetadataCommand {
            alloc,
            cargo_path: None,
            manifest_path: None,
            current_dir: None,
            features: Vec::new(alloc),
            other_options: Vec::new(alloc),
            variables: BTreeMap::new(alloc),
            has_no_deps: false,
            has_all_features: false,
            has_no_default_features: false,
            is_verbose: false,
        }
    }

    /// The program to run as cargo, instead of the one that is passed to `exec`. Never refused. Time O(1).
    ///
    /// ```text
    /// command.cargo_path(String::from_str(alloc, "/usr/bin/cargo")?);
    /// ```
    pub fn cargo_path(&mut self, path: String) -> &mut Self
        ensures set { result.now ≡ record (self.old) { cargo_path = Some (text_view path) } }
        ensures same_reference { result.ghost_name ≡ self.entry.ghost_name }
    {
        self.cargo_path = Some(path);
        self
    }

    /// The manifest of the workspace whose metadata is wanted, for `--manifest-path`. Never refused. Time O(1).
    ///
    /// ```text
    /// command.manifest_path(String::from_str(alloc, "/w/a/Cargo.toml")?);
    /// ```
    pub fn manifest_path(&mut self, path: String) -> &mut Self
        ensures set { result.now ≡ record (self.old) { manifest_path = Some (text_view path) } }
        ensures same_reference { result.ghost_name ≡ self.entry.ghost_name }
    {
        self.manifest_path = Some(path);
        self
    }

    /// The directory to run cargo in. Never refused. Time O(1).
    ///
    /// ```text
    /// command.current_dir(String::from_str(alloc, "/w/a")?);
    /// ```
    pub fn current_dir(&mut self, path: String) -> &mut Self
        ensures set { result.now ≡ record (self.old) { current_dir = Some (text_view path) } }
        ensures same_reference { result.ghost_name ≡ self.entry.ghost_name }
    {
        self.current_dir = Some(path);
        self
    }

    /// Leaves dependencies out of the document, by `--no-deps`. Such a document has no resolved graph, so a build
    /// refuses it. Never refused. Time O(1).
    ///
    /// ```text
    /// command.no_deps();
    /// ```
    pub fn no_deps(&mut self) -> &mut Self
        ensures set { result.now ≡ record (self.old) { no_deps = true } }
        ensures same_reference { result.ghost_name ≡ self.entry.ghost_name }
    {
        self.has_no_deps = true;
        self
    }

    /// Further options, instead of those that were set before, as the last words of the command. Never refused. Time
    /// O(1).
    ///
    /// ```text
    /// command.other_options(vec![in alloc; String::from_str(alloc, "--offline")?]?);
    /// ```
    pub fn other_options(&mut self, options: Vec<String>) -> &mut Self
        ensures set { result.now ≡ record (self.old) { other_options = texts_view options } }
        ensures same_reference { result.ghost_name ≡ self.entry.ghost_name }
    {
        self.other_options = options;
        self
    }

    /// Whether cargo writes its errors and warnings to the standard error of this process; where it doesn't, they are
    /// kept for the refusal. Never refused. Time O(1).
    ///
    /// ```text
    /// command.verbose(true);
    /// ```
    pub fn verbose(&mut self, is_on: bool) -> &mut Self
        ensures set { result.now ≡ record (self.old) { verbose = is_on } }
        ensures same_reference { result.ghost_name ≡ self.entry.ghost_name }
    {
        self.is_verbose = is_on;
        self
    }

    /// The command with only these settings.
    pub(crate) fn asking(
        alloc: Global,
        cargo_path: Option<String>,
        manifest_path: Option<String>,
        current_dir: Option<String>,
        options: Vec<String>,
    ) -> MetadataCommand
        ensures { result ≡ record plain_command {
          cargo_path = option_map text_view cargo_path;
          manifest_path = option_map text_view manifest_path;
          current_dir = option_map text_view current_dir;
          other_options = texts_view options;
        } }
    {
        MetadataCommand {
            cargo_path,
            manifest_path,
            current_dir,
            other_options: options,
            ..MetadataCommand::new(alloc)
        }
    }

    /// Chooses features: names are added to those that are chosen already. All of them, and all but the default ones,
    /// can be chosen only once: the refusal is `FeaturesTwice` exactly if they are chosen already. Only names can
    /// run out of memory, which is refused as `Memory`. After a refusal the command is as it was. Time O(names).
    ///
    /// ```text
    /// command.features(Features::NoDefault)?;
    /// command.features(Features::Selected(vec![in alloc; String::from_str(alloc, "cli")?]?))?;
    /// ```
    pub fn features(&mut self, features: Features) -> Result<&mut Self, Error>
        ensures* refused { sem 𝓛 (RestsCommand self.entry result) }
        ensures chosen { IfOk result (λ c. c.now ≡ choosing self.old features) }
        ensures twice { result ≡ Err errors.FeaturesTwice ↔ IsChosen self.old features }
        ensures cause { IfErr result (IsNotChosen self.old features) }
        ensures same_reference { IfOk result (λ c. c.ghost_name ≡ self.entry.ghost_name) }
    {
        match self.choose(features) {
            Ok(()) => Ok(self),
            Err(error) => Err(error),
        }
    }

    /// Chooses features.
    fn choose(&mut self, features: Features) -> Result<(), Error>
        ensures chosen { IfOk result (λ _. self.new ≡ choosing self.old features) }
        ensures refused { IfErr result (IsNotChosen self.old features) }
        ensures once { IsChosen self.old features → result ≡ Err errors.FeaturesTwice }
        ensures unchanged { OnErr result (self.new ≡ self.old) }
    {
        match features {
            Features::All if self.has_all_features => return Err(Error::FeaturesTwice),
            Features::All => self.has_all_features = true,
            Features::NoDefault if self.has_no_default_features => return Err(Error::FeaturesTwice),
            Features::NoDefault => self.has_no_default_features = true,
            Features::Selected(names) => {
                let mut names = names;
                self.features.append(&mut names)?;
            }
        }
        Ok(())
    }

    /// Sets a variable of the environment that cargo gets, in addition to those of this process; of two values for one name
    /// the last counts. The only refusal is running out of memory, and then the command is as it was. Time O(log n)
    /// for n variables.
    ///
    /// ```text
    /// command.env("RUSTC", "rustc")?.env("CARGO_NET_OFFLINE", "true")?;
    /// ```
    pub fn env(&mut self, name: &str, value: &str) -> Result<&mut Self, AllocError>
        ensures* refused { sem 𝓛 (RestsCommand self.entry result) }
        ensures set { IfOk result (λ c. c.now ≡ with_variable self.old name.now value.now) }
        ensures same_reference { IfOk result (λ c. c.ghost_name ≡ self.entry.ghost_name) }
    {
        if self.has_set(name, value) {
            Ok(self)
        } else {
            Err(AllocError)
        }
    }

    /// Sets a variable, and returns whether that succeeded.
    fn has_set(&mut self, name: &str, value: &str) -> bool
        ensures { MatchBool result
            (self.new ≡ with_variable self.old name.now value.now) (self.new ≡ self.old) }
    {
        self.set_variable(name, value).is_ok()
    }

    fn set_variable(&mut self, name: &str, value: &str) -> Result<(), AllocError>
        ensures set { IfOk result (λ _. self.new ≡ with_variable self.old name.now value.now) }
        ensures unchanged { OnErr result (self.new ≡ self.old) }
    {
        let name = String::from_str(self.alloc, name)?;
        let value = String::from_str(self.alloc, value)?;
        self.variables.insert(name, value)?;
        Ok(())
    }

    /// The words after the program: `metadata`, `--format-version` and `1`, then `--no-deps`, then `--features` with
    /// the names joined by commas, `--all-features`, `--no-default-features`, then `--manifest-path` with the path,
    /// and then the other options; each only where it is set. The only error is running out of memory. Time O(length
    /// of the words).
    ///
    /// ```text
    /// for word in &command.args()? {
    ///     println!(rt; "{word}")?;
    /// }
    /// ```
    pub fn args(&self) -> Result<Vec<String>, AllocError>
        ensures { IfOk result (λ args. texts_view args ≡ words self.now) }
    {
        let alloc = self.alloc;
        let mut args = Vec::new(alloc);
        push_word(alloc, &mut args, "metadata")?;
        push_word(alloc, &mut args, "--format-version")?;
        push_word(alloc, &mut args, "1")?;
        push_flag(alloc, &mut args, self.has_no_deps, "--no-deps")?;
        push_listed(alloc, &mut args, "--features", ",", &self.features)?;
        push_flag(alloc, &mut args, self.has_all_features, "--all-features")?;
        push_flag(
            alloc,
            &mut args,
            self.has_no_default_features,
            "--no-default-features",
        )?;
        push_valued(alloc, &mut args, "--manifest-path", &self.manifest_path)?;
        push_all(alloc, &mut args, &self.other_options)?;
        Ok(args)
    }

    /// Reads a document: the JSON value of the text (RFC 8259), then the metadata of that value.
    ///
    /// It is refused as `Json` if the text isn't JSON, and as `Value` if its value isn't read. It may instead
    /// return `Memory`. Time O(length).
    ///
    /// ```text
    /// let metadata = MetadataCommand::parse(alloc, text)?;
    /// ```
    pub fn parse(alloc: Global, text: &str) -> Result<Metadata, Error>
        ensures document { IfOk result (λ m. IsDocument text.now (metadata_view m)) }
        ensures refused { IfErr result (IsRefusal text.now) }
    {
        parse(alloc, text)
    }
}
