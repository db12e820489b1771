//! What is asked of cargo, as on the command line of a tool.

ghost use Rattle.std.specs.Prelude.{◌≡◌, ◌↔◌, Some, true, IfOk, IfErr, map};
ghost use Rattle.std.specs.Option.{option_map};
ghost use Rattle.std.specs.Bool.{MatchBool};
ghost use Rattle.std.specs.Borrow.{sem};
ghost use Rattle.krates_cm.specs.Document.{text_view, texts_view};
ghost use Rattle.krates_cm.specs.declared.error.Error.TheVariants as errors;
ghost use Rattle.krates_cargo.specs.CargoOptions.{AreOptions, IsCommandOf, IsDirectory, IsInOrder, IsParentlessOrMemory, LacksParent, manifest_of, or_here, plain_options};
ghost use Rattle.krates_cargo.specs.Setters.{RestsOptions, with_features, with_options};

use crate::command::MetadataCommand;
use crate::words::{push_all, push_flag, push_listed};
use krates_cm::Error;
use krates_text::path::parent;
use std::alloc::{AllocError, Global};
use std::marker::Model;

/// How cargo may treat the file `Cargo.lock` and the network (Cargo Book, "cargo metadata", "Manifest Options").
#[derive(Clone, Copy, Debug)]
pub struct LockOptions {
    /// As both of the others.
    pub frozen: bool,
    /// The file must be up to date.
    pub locked: bool,
    /// The network isn't used.
    pub offline: bool,
}

/// What is asked of `cargo metadata`, as by the options of a tool. It becomes a command by `into_command`.
///
/// The setters may be called in any order. Names of features and other options are added to those that are set; in
/// everything else the last call counts. Each returns the value, so that calls chain. Those that add can run out of
/// memory, and then change nothing.
///
/// ```text
/// let mut cmd = Cmd::new(alloc);
/// cmd.manifest_path(path).all_features();
/// let command = cmd.into_command()?;
/// ```
#[derive(Debug, Drop)]
pub struct Cmd {
    alloc: Global,
    cargo_path: Option<String>,
    manifest_path: Option<String>,
    current_dir: Option<String>,
    features: Vec<String>,
    other_options: Vec<String>,
    lock: LockOptions,
    has_no_default_features: bool,
    has_all_features: bool,
}

impl Model for Cmd {
    ghost use Rattle.std.specs.Option.{option_map};
    ghost use Rattle.krates_cm.specs.Document.{text_view, texts_view};
    ghost use Rattle.krates_cargo.specs.CargoOptions.{CargoOptionsModel};

    ghost Value = { CargoOptionsModel };

    ghost view = { λ c. record {
      cargo_path = option_map text_view c.cargo_path;
      manifest_path = option_map text_view c.manifest_path;
      current_dir = option_map text_view c.current_dir;
      no_default_features = c.has_no_default_features;
      all_features = c.has_all_features;
      features = texts_view c.features;
      other_options = texts_view c.other_options;
      lock = c.lock;
    } };
}

impl Cmd {
    /// Nothing is set yet. Time O(1).
    ///
    /// ```text
    /// let mut cmd = Cmd::new(alloc);
    /// ```
    pub fn new(alloc: Global) -> Cmd
        ensures { result ≡ plain_options }
    {
        Cmd {
            alloc,
            cargo_path: None,
            manifest_path: None,
            current_dir: None,
            features: Vec::new(alloc),
            other_options: Vec::new(alloc),
            lock: LockOptions {
                frozen: false,
                locked: false,
                offline: false,
            },
            has_no_default_features: false,
            has_all_features: false,
        }
    }
    /// The program to run as cargo. Never refused. Time O(1).
    ///
    /// ```text
    /// cmd.cargo_path(String::from_str(alloc, "/usr/bin/cargo")?);
    /// ```
    pub fn cargo_path(&mut self, path: String) -> &mut Self
        ensures set { result.now ≡ record (self.old) { cargo_path = Some (text_view path) } }
        ensures same_reference { result.ghost_name ≡ self.entry.ghost_name }
    {
        self.cargo_path = Some(path);
        self
    }

    /// The manifest of the workspace whose metadata is wanted. Cargo is run in its directory, whatever other directory is set. Never
    /// refused here: a path without parent is refused by `into_command`. Time O(1).
    ///
    /// ```text
    /// cmd.manifest_path(String::from_str(alloc, "/w/a/Cargo.toml")?);
    /// ```
    pub fn manifest_path(&mut self, path: String) -> &mut Self
        ensures set { result.now ≡ record (self.old) { manifest_path = Some (text_view path) } }
        ensures same_reference { result.ghost_name ≡ self.entry.ghost_name }
    {
        self.manifest_path = Some(path);
        self
    }

    /// The directory to run cargo in, if no manifest is set. Never refused. Time O(1).
    ///
    /// ```text
    /// cmd.current_dir(String::from_str(alloc, "/w/a")?);
    /// ```
    pub fn current_dir(&mut self, path: String) -> &mut Self
        ensures set { result.now ≡ record (self.old) { current_dir = Some (text_view path) } }
        ensures same_reference { result.ghost_name ≡ self.entry.ghost_name }
    {
        self.current_dir = Some(path);
        self
    }

    /// Leaves out the feature `default`, unless it is named. Never refused. Time O(1).
    ///
    /// ```text
    /// cmd.no_default_features();
    /// ```
    pub fn no_default_features(&mut self) -> &mut Self
        ensures set { result.now ≡ record (self.old) { no_default_features = true } }
        ensures same_reference { result.ghost_name ≡ self.entry.ghost_name }
    {
        self.has_no_default_features = true;
        self
    }

    /// Requests all features. Never refused. Time O(1).
    ///
    /// ```text
    /// cmd.all_features();
    /// ```
    pub fn all_features(&mut self) -> &mut Self
        ensures set { result.now ≡ record (self.old) { all_features = true } }
        ensures same_reference { result.ghost_name ≡ self.entry.ghost_name }
    {
        self.has_all_features = true;
        self
    }

    /// How cargo may treat the file `Cargo.lock` and the network; the last call counts as a whole. Never refused.
    /// Time O(1).
    ///
    /// ```text
    /// cmd.lock_opts(LockOptions { frozen: false, locked: true, offline: false });
    /// ```
    pub fn lock_opts(&mut self, lock: LockOptions) -> &mut Self
        ensures set { result.now ≡ record (self.old) { lock = lock } }
        ensures same_reference { result.ghost_name ≡ self.entry.ghost_name }
    {
        self.lock = lock;
        self
    }

    /// Requests the features with these names, in addition to those that were requested before. The only refusal is running
    /// out of memory, and then nothing has changed. Time O(names).
    ///
    /// ```text
    /// cmd.features(vec![in alloc; String::from_str(alloc, "cli")?]?)?;
    /// ```
    pub fn features(&mut self, names: Vec<String>) -> Result<&mut Self, AllocError>
        ensures* refused { sem 𝓛 (RestsOptions self.entry result) }
        ensures appended { IfOk result (λ c. c.now ≡ with_features self.old (texts_view names)) }
        ensures same_reference { IfOk result (λ c. c.ghost_name ≡ self.entry.ghost_name) }
    {
        if self.has_added_features(names) {
            Ok(self)
        } else {
            Err(AllocError)
        }
    }

    /// Requests more features, and returns whether that succeeded.
    fn has_added_features(&mut self, names: Vec<String>) -> bool
        ensures { MatchBool result (self.new ≡ with_features self.old (texts_view names)) (self.new ≡ self.old) }
    {
        let mut names = names;
        self.features.append(&mut names).is_ok()
    }

    /// Adds further options to those that are set. The only refusal is running out of memory, and then nothing has
    /// changed. Time O(options).
    ///
    /// ```text
    /// cmd.other_options(vec![in alloc; String::from_str(alloc, "--quiet")?]?)?;
    /// ```
    pub fn other_options(&mut self, options: Vec<String>) -> Result<&mut Self, AllocError>
        ensures* refused { sem 𝓛 (RestsOptions self.entry result) }
        ensures appended { IfOk result (λ c. c.now ≡ with_options self.old (texts_view options)) }
        ensures same_reference { IfOk result (λ c. c.ghost_name ≡ self.entry.ghost_name) }
    {
        if self.has_added_options(options) {
            Ok(self)
        } else {
            Err(AllocError)
        }
    }

    /// Adds further options, and returns whether that succeeded.
    fn has_added_options(&mut self, options: Vec<String>) -> bool
        ensures { MatchBool result (self.new ≡ with_options self.old (texts_view options)) (self.new ≡ self.old) }
    {
        let mut options = options;
        self.other_options.append(&mut options).is_ok()
    }

    /// The command with all these options: with the features in the order of their bytes, each once and joined by
    /// spaces, and with the options in this order: `--no-default-features`, `--all-features`, `--features` with the
    /// names, `--frozen`, `--locked`, `--offline`, and then the others; each only where it is set.
    ///
    /// Where a manifest is set, the command runs in the manifest's parent directory and names `Cargo.toml`, since cargo
    /// looks for its configuration from there. An empty directory becomes `.`.
    ///
    /// It is refused as `NoManifestParent` exactly where a manifest is set whose path has no parent. It may instead
    /// return `Memory`. Time O(n log n) for n features.
    ///
    /// ```text
    /// let command = cmd.into_command()?;
    /// ```
    pub fn into_command(self) -> Result<MetadataCommand, Error>
        ensures command { IfOk result (IsCommandOf self) }
        ensures parentless { result ≡ Err errors.NoManifestParent ↔ LacksParent self.manifest_path }
        ensures refused { IfErr result IsParentlessOrMemory }
    {
        let directory = self.directory()?;
        let manifest_path = self.manifest()?;
        let options = self.options()?;
        Ok(MetadataCommand::asking(
            self.alloc,
            self.cargo_path,
            manifest_path,
            directory,
            options,
        ))
    }

    /// Where the command runs.
    fn directory(&self) -> Result<Option<String>, Error>
        ensures directory { IfOk result (λ here. IsDirectory self.now (option_map text_view here)) }
        ensures parentless { result ≡ Err errors.NoManifestParent ↔ LacksParent self.now.manifest_path }
        ensures refused { IfErr result IsParentlessOrMemory }
    {
        let Some(manifest) = &self.manifest_path else {
            return Ok(directory_set(self.alloc, &self.current_dir)?);
        };
        let Some(parent) = parent(manifest.as_str()) else {
            return Err(Error::NoManifestParent);
        };
        Ok(Some(or_here(self.alloc, parent)?))
    }

    /// The manifest that the command names.
    fn manifest(&self) -> Result<Option<String>, AllocError>
        ensures { IfOk result (λ path. option_map text_view path ≡ manifest_of self.now.manifest_path) }
    {
        if self.manifest_path.is_none() {
            return Ok(None);
        }
        Ok(Some(String::from_str(self.alloc, "Cargo.toml")?))
    }

    /// The options of the command.
    fn options(&self) -> Result<Vec<String>, AllocError>
        ensures { IfOk result (λ options. AreOptions self.now (texts_view options)) }
    {
        let alloc = self.alloc;
        let names = sorted_names(alloc, &self.features)?;
        let mut options = Vec::new(alloc);
        push_flag(
            alloc,
            &mut options,
            self.has_no_default_features,
            "--no-default-features",
        )?;
        push_flag(alloc, &mut options, self.has_all_features, "--all-features")?;
        push_listed(alloc, &mut options, "--features", " ", &names)?;
        push_flag(alloc, &mut options, self.lock.frozen, "--frozen")?;
        push_flag(alloc, &mut options, self.lock.locked, "--locked")?;
        push_flag(alloc, &mut options, self.lock.offline, "--offline")?;
        push_all(alloc, &mut options, &self.other_options)?;
        Ok(options)
    }
}

/// The names in the order of their bytes, each once.
fn sorted_names(alloc: Global, names: &[String]) -> Result<Vec<String>, AllocError>
    ensures { IfOk result (λ sorted. IsInOrder (map text_view names.now) (texts_view sorted)) }
{
    let mut sorted = Vec::new(alloc);
    push_all(alloc, &mut sorted, names)?;
    sorted.sort()?;
    sorted.dedup();
    Ok(sorted)
}

/// The directory that is set, if one is.
fn directory_set(alloc: Global, dir: &Option<String>) -> Result<Option<String>, AllocError>
    ensures { IfOk result (λ d. option_map text_view d ≡ option_map or_here (option_map text_view dir.now)) }
{
    match dir {
        Some(dir) => Ok(Some(or_here(alloc, dir.as_str())?)),
        None => Ok(None),
    }
}

/// The directory, where an empty text means the one that this process is in.
fn or_here(alloc: Global, dir: &str) -> Result<String, AllocError>
    ensures { IfOk result (λ here. text_view here ≡ or_here dir.now) }
{
    String::from_str(alloc, if dir.is_empty() { "." } else { dir })
}
