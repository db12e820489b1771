//! The options that cargo is given.

ghost use Rattle.std.specs.Prelude.{◌≡◌, false, None, IfErr, IfOk};
ghost use Rattle.krates_cargo.specs.CargoOptions.{IsCommandOf};
ghost use Rattle.krates_cm.specs.declared.error.Error.TheVariants.{Memory};
ghost use Rattle.krates_words.specs.CargoWords.{IsTold, asked_of_cargo, words_for_build};

use krates_cargo::{Cmd, LockOptions, MetadataCommand};
use krates_cm::Error;
use std::alloc::Global;

/// The options that cargo is given, where the document comes from it (Cargo Book, "cargo metadata").
#[derive(Debug, Drop)]
pub struct CargoWords {
    /// The manifest of the workspace: `--manifest-path`. It ends in `Cargo.toml`.
    pub manifest_path: Option<String>,
    /// The names of features, several in one text with commas or spaces between them: `--features`.
    pub features: Vec<String>,
    /// Whether all features are enabled: `--all-features`.
    pub all_features: bool,
    /// Whether the feature `default` is left out: `--no-default-features`.
    pub no_default_features: bool,
    /// Whether the file `Cargo.lock` has to be up to date: `--locked`.
    pub locked: bool,
    /// Whether the network isn't used: `--offline`.
    pub offline: bool,
    /// Both: `--frozen`.
    pub frozen: bool,
}

impl CargoWords {
    /// The options that cargo is given where these are those of a build. Cargo writes no edge of a feature that isn't enabled, and which ones
    /// are enabled isn't cargo's to say then: so it is asked for all features, and also for those that are named, since all features of the
    /// workspace don't have those of a dependency. The default ones are never left out. Time O(1).
    ///
    /// ```text
    /// let command = words.for_build().command(alloc)?;
    /// ```
    pub fn for_build(self) -> CargoWords
        ensures { result ≡ words_for_build self }
    {
        CargoWords {
            all_features: true,
            no_default_features: false,
            ..self
        }
    }

    /// The command `cargo metadata` with these options. Cargo runs where this process does, and is passed the manifest's path: so its
    /// configuration and its toolchain are those of this place, as they are for `cargo metadata` with the same options, and what the
    /// manifest's own folder names isn't run (Cargo Book, "Configuration", "Hierarchical structure"). The only error is `Memory`.
    /// Time O(n log n) of the features.
    ///
    /// ```text
    /// let command = asked.cargo.command(alloc)?;
    /// ```
    pub fn command(&self, alloc: Global) -> Result<MetadataCommand, Error>
        ensures told { IfOk result (IsTold self.now) }
        ensures here { IfOk result (λ c. c.current_dir ≡ None) }
        ensures refused { IfErr result (λ e. e ≡ Memory) }
    {
        let mut command = self.without_manifest(alloc)?;
        if let Some(path) = &self.manifest_path {
            command.manifest_path(path.clone()?);
        }
        Ok(command)
    }

    /// The command with all of these options but the manifest.
    fn without_manifest(&self, alloc: Global) -> Result<MetadataCommand, Error>
        ensures told { IfOk result (IsCommandOf (asked_of_cargo self.now)) }
        ensures refused { IfErr result (λ e. e ≡ Memory) }
    {
        let mut cmd = Cmd::new(alloc);
        cmd.features(self.features.clone()?)?;
        cmd.lock_opts(LockOptions {
            frozen: self.frozen,
            locked: self.locked,
            offline: self.offline,
        });
        self.choose_features(&mut cmd);
        cmd.into_command()
    }

    /// Chooses all features or leaves out the default ones, where nothing is chosen yet.
    fn choose_features(&self, cmd: &mut Cmd)
        requires { (cmd.old.all_features ≡ false) × (cmd.old.no_default_features ≡ false) }
        ensures { cmd.new ≡ record cmd.old {
          all_features = self.now.all_features;
          no_default_features = self.now.no_default_features;
        } }
    {
        if self.all_features {
            cmd.all_features();
        }
        if self.no_default_features {
            cmd.no_default_features();
        }
    }
}
