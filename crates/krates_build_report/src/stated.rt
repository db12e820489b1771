//! By which rules an answer is, as JSON says it.

use krates_report::json::{JsonObject, Values};
use krates_units::{BuildSetting, PackageSelection, Resolver, TargetFlags};
use serde_json::Value;
use std::alloc::{AllocError, Global};

/// What JSON says of an answer about a build: the `version` of its form; `rules`, which is `build`; what the `build` is asked for; and the `answer`.
pub(crate) fn of_build(
    alloc: Global,
    setting: &BuildSetting,
    answer: Result<Value, AllocError>,
) -> Result<Value, AllocError> {
    JsonObject::versioned(alloc)
        .text("rules", "build")
        .put("build", setting_json(alloc, setting))
        .put("answer", answer)
        .object()
}

/// The same of an answer about two builds, of which the second is that of the document of before, the `old_build`.
pub(crate) fn of_two_builds(
    alloc: Global,
    settings: (&BuildSetting, &BuildSetting),
    answer: Result<Value, AllocError>,
) -> Result<Value, AllocError> {
    JsonObject::versioned(alloc)
        .text("rules", "build")
        .put("build", setting_json(alloc, settings.0))
        .put("old_build", setting_json(alloc, settings.1))
        .put("answer", answer)
        .object()
}

/// The version of the resolver.
pub(crate) fn resolver_name(resolver: Resolver) -> &'static str {
    match resolver {
        Resolver::V1 => "1",
        Resolver::V2 => "2",
        Resolver::V3 => "3",
    }
}

/// What a build is asked for: `resolver`, `host`, `targets`, `packages`, `features`, `all_features`, `no_default_features`, and the kinds of
/// `target`s.
fn setting_json(alloc: Global, setting: &BuildSetting) -> Result<Value, AllocError> {
    let mut targets = Values::new(alloc);
    for target in &setting.targets {
        targets.add(Value::try_from_str(alloc, target.triple()));
    }
    let mut features = Values::new(alloc);
    for feature in &setting.features {
        features.add(Value::try_from_str(alloc, feature.as_str()));
    }
    JsonObject::new(alloc)
        .text("resolver", resolver_name(setting.resolver))
        .text("host", setting.host.triple())
        .put("targets", targets.list())
        .put("packages", packages_json(alloc, &setting.selection))
        .put("features", features.list())
        .put("all_features", Ok(Value::Bool(setting.all_features)))
        .put(
            "no_default_features",
            Ok(Value::Bool(setting.no_default_features)),
        )
        .put("target_kinds", kinds_json(alloc, setting.kinds))
        .object()
}

/// Which packages are asked for: `default`, `workspace`, or how many specifications name them.
fn packages_json(alloc: Global, selection: &PackageSelection) -> Result<Value, AllocError> {
    match selection {
        PackageSelection::DefaultMembers => Value::try_from_str(alloc, "default"),
        PackageSelection::Workspace => Value::try_from_str(alloc, "workspace"),
        PackageSelection::Packages(specs) => {
            let mut values = Values::new(alloc);
            for spec in specs {
                values.add(Value::try_from_str(alloc, spec.name.as_str()));
            }
            values.list()
        }
    }
}

/// The kinds of targets that are asked for.
fn kinds_json(alloc: Global, kinds: TargetFlags) -> Result<Value, AllocError> {
    let known = [
        ("lib", kinds.lib),
        ("bins", kinds.bins),
        ("examples", kinds.examples),
        ("tests", kinds.tests),
        ("benches", kinds.benches),
        ("all-targets", kinds.all),
    ];
    let mut values = Values::new(alloc);
    for (name, is_asked) in known {
        if is_asked {
            values.add(Value::try_from_str(alloc, name));
        }
    }
    values.list()
}
