//! What is asked of a run: how it is read from words, and what it sets of a builder.

ghost use Rattle.std.specs.Prelude.{◌≡◌, ◌∷◌, IfErr, IfOk, OnOk, map, option_map, string_bytes};
ghost use Rattle.krates_ids.specs.Identity.{Identity, Reads};
ghost use Rattle.krates_ids.specs.PackageSpecification.{Specification, IsSpec, spec_view};
ghost use Rattle.krates_text.specs.AskedTargets.{asked_of};
ghost use Rattle.krates_cli.specs.Options.{IsCommandLine, IsUnknown, asked_at, kind_named, options_view, plain_options, setting_of};
ghost use Rattle.krates_cli.specs.OptionsReading.{AddsFirst, AddsValue, BeginsUnknown, IsNoValue, IsUnread, with_ignored};
ghost use Rattle.krates_cli.specs.declared.options.OptionsError.TheVariants.{Memory};

use krates::resolve::Setting;
use krates::target::Target;
use krates::{Error, IdError, Kid, PackageId, PkgSpec};
use krates_ids::laws;
use krates_resolve::{DepKind, Scope};
use std::alloc::{AllocError, AllocFailed, Global};

/// What is asked of a run.
#[derive(Debug, Drop)]
pub struct Options {
    /// Whether every member of the workspace is a root, even where the graph has a root of its own: `--workspace`.
    pub workspace: bool,
    /// The dependencies of these kinds are ignored, whichever crate has them: `--ignore-kind`.
    pub ignored: Vec<DepKind>,
    /// The triples of the targets: `--target`. Where none is given, any target is meant.
    pub targets: Vec<String>,
    /// The packages that one of these fits are left out: `--exclude`.
    pub exclusions: Vec<PkgSpec>,
    /// The program that is run as cargo for the document, instead of reading it: `--cargo`. The last one counts.
    pub cargo: Option<String>,
    /// The crate whose derivation is written instead of the lines of the packages: `--why`. The last one counts.
    pub why: Option<Kid>,
    /// Whether a name in a feature reference means all dependencies that match it: `--all-named`.
    pub all_named: bool,
}

/// Why words aren't read as options.
#[derive(Debug, Drop, thiserror::Error)]
pub enum OptionsError {
    /// A word isn't an option, an option has no value, or its value isn't a kind, a package specification or a package id.
    #[error("the words aren't options")]
    Unknown,
    /// Memory ran out.
    #[error("out of memory")]
    Memory,
}

impl From<AllocError> for OptionsError {
    ghost from_gives = { λ _ e. e ≡ Memory };

    fn from(_error: AllocError) -> OptionsError {
        OptionsError::Memory
    }
}

impl<T: Drop> From<AllocFailed<T>> for OptionsError {
    ghost from_gives = { λ _ e. e ≡ Memory };

    fn from(_error: AllocFailed<T>) -> OptionsError {
        OptionsError::Memory
    }
}

impl Options {
    /// Nothing is asked. Time O(1).
    pub fn new(alloc: Global) -> Options
        ensures { options_view result ≡ plain_options }
    {
        Options {
            workspace: false,
            ignored: Vec::new(alloc),
            targets: Vec::new(alloc),
            exclusions: Vec::new(alloc),
            cargo: None,
            why: None,
            all_named: false,
        }
    }

    /// The setting that these options mean: what they say about the packages, without the program and the crate to be explained. The
    /// only error is running out of memory. Time O(length of the options).
    ///
    /// ```text
    /// let options = options_of(alloc, words)?;
    /// let builder = Builder::under(alloc, options.setting(alloc)?);
    /// ```
    pub fn setting(&self, alloc: Global) -> Result<Setting, AllocError>
        ensures { IfOk result (λ setting. setting ≡ setting_of (options_view self.now)) }
    {
        let mut setting = Setting::new(alloc);
        setting.workspace(self.workspace);
        setting.all_named(self.all_named);
        ignore_kinds(&mut setting, &self.ignored);
        setting.include_targets(targets_of(alloc, &self.targets)?)?;
        setting.exclude(self.exclusions.clone()?)?;
        Ok(setting)
    }

    /// Adds what the words that begin with this option mean, and answers the words after it.
    fn read_option<'w>(
        &mut self,
        alloc: Global,
        option: &str,
        values: &'w [String],
    ) -> Result<&'w [String], OptionsError>
        ensures read { IfOk result
            (λ rest. AddsFirst (option.now
            ∷ map string_bytes values.now) (options_view self.old) (options_view self.new)
            (map string_bytes rest.now)) }
        ensures refused { IfErr result (IsUnread (BeginsUnknown (option.now ∷ map string_bytes values.now))) }
    {
        if option == "--workspace" {
            self.workspace = true;
            return Ok(values);
        }
        if option == "--all-named" {
            self.all_named = true;
            return Ok(values);
        }
        let Some((value, rest)) = values.split_first() else {
            return Err(OptionsError::Unknown);
        };
        self.read_value(alloc, option, value)?;
        Ok(rest)
    }

    /// Adds what the option means with this value.
    fn read_value(&mut self, alloc: Global, option: &str, value: &str) -> Result<(), OptionsError>
        ensures read { OnOk result (AddsValue option.now value.now (options_view self.old)
            (options_view self.new)) }
        ensures refused { IfErr result (IsUnread (IsNoValue option.now value.now)) }
    {
        match option {
            "--ignore-kind" => self.ignored.push(dep_kind(value)?)?,
            "--target" => self.targets.push(String::from_str(alloc, value)?)?,
            "--exclude" => self.exclusions.push(pkg_spec(alloc, value)?)?,
            "--cargo" => self.cargo = Some(String::from_str(alloc, value)?),
            "--why" => self.why = Some(kid_of(alloc, value)?),
            _ => return Err(OptionsError::Unknown),
        }
        Ok(())
    }
}

/// The kind that a word means.
fn dep_kind(word: &str) -> Result<DepKind, OptionsError>
    ensures read { IfOk result (λ kind. kind_named word.now ≡ Some kind) }
    ensures refused { IfErr result (IsUnread (kind_named word.now ≡ None)) }
{
    match word {
        "normal" => Ok(DepKind::Normal),
        "build" => Ok(DepKind::Build),
        "dev" => Ok(DepKind::Dev),
        _ => Err(OptionsError::Unknown),
    }
}

/// The package specification that a word is.
fn pkg_spec(alloc: Global, word: &str) -> Result<PkgSpec, OptionsError>
    ensures read { IfOk result
        (λ spec. let view = spec_view spec in IsSpec word.now view.name view.version view.url) }
    ensures refused { IfErr result (IsUnread ((spec : Specification)
        → IsSpec word.now spec.name spec.version spec.url → ⊥)) }
{
    match PkgSpec::from_str(alloc, word) {
        Ok(spec) => Ok(spec),
        Err(Error::InvalidPkgSpec(_)) => Err(OptionsError::Unknown),
        Err(_) => Err(OptionsError::Memory),
    }
}

/// The package id that a word is. It is refused as `Unknown` exactly where the word isn't one, or as `Memory`. Time O(length of the word).
///
/// ```text
/// let krate = kid_of(alloc, "path+file:///w/b#0.1.0")?;
/// ```
pub fn kid_of(alloc: Global, word: &str) -> Result<Kid, OptionsError>
    ensures read { IfOk result (λ krate. Reads word.now krate) }
    ensures refused { IfErr result (IsUnread ((krate : Identity) → Reads word.now krate → ⊥)) }
{
    laws::one_reading();
    let repr = String::from_str(alloc, word)?;
    match Kid::try_from(PackageId { repr }) {
        Ok(krate) => Ok(krate),
        Err(IdError::Memory(_)) => Err(OptionsError::Memory),
        Err(IdError::Opaque(_)) => Err(OptionsError::Unknown),
        Err(IdError::Stable(_)) => Err(OptionsError::Unknown),
        Err(IdError::Escape(_)) => Err(OptionsError::Unknown),
    }
}

/// Reads options from words, which may come in any order and more than once. A value is the next word, whatever it is.
///
/// The options are `--workspace`; `--ignore-kind KIND`, where KIND is `normal`, `build` or `dev`; `--target TRIPLE`;
/// `--exclude SPEC`, where SPEC is a package specification; `--cargo PROGRAM`; `--why ID`, where ID is a package id; and
/// `--all-named`. The answer has what is asked in the order of the words; of several programs the last counts, and likewise
/// of several ids. It is refused as `Unknown` where the words aren't such options, and only there; it may instead return
/// `Memory`. Time O(length of the words).
pub fn options_of(alloc: Global, words: &[String]) -> Result<Options, OptionsError>
    ensures read { IfOk result
        (λ options. IsCommandLine (map string_bytes words.now) (options_view options)) }
    ensures refused { IfErr result (IsUnread (IsUnknown (map string_bytes words.now))) }
{
    let mut options = Options::new(alloc);
    let mut rest = words;
    while let Some((option, values)) = rest.split_first() {
        rest = options.read_option(alloc, option, values)?;
    }
    Ok(options)
}

/// Ignores dependencies of these kinds, whichever crate has them.
fn ignore_kinds(setting: &mut Setting, kinds: &[DepKind])
    ensures { setting.new ≡ record setting.old { ignored = with_ignored kinds.now setting.old.ignored } }
{
    for kind in kinds {
        setting.ignore_kind(*kind, Scope::All);
    }
}

/// The targets with these triples, each without features, as options mean them. The only error is running out of memory. Time
/// O(length of the triples).
///
/// ```text
/// let targets = targets_of(alloc, &options.targets)?;
/// ```
pub fn targets_of(
    alloc: Global,
    triples: &[String],
) -> Result<Vec<(Target, Vec<String>)>, AllocError>
    ensures { IfOk result
        (λ targets. map asked_of targets.items ≡ map asked_at (map string_bytes triples.now)) }
{
    let mut targets = Vec::new(alloc);
    for triple in triples {
        targets.push((Target::new(alloc, triple)?, Vec::new(alloc)))?;
    }
    Ok(targets)
}
