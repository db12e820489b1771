//! A target as rustc describes it: the lines that `rustc --print cfg --target TRIPLE` prints.
ghost use Rattle.std.specs.Prelude.{IfOk, map, string_bytes};
ghost use Rattle.std.specs.Option.{MatchOption};
ghost use Rattle.krates_text.specs.RustcCfg.{AreValues, GivesNone, GivesValue, IsDescribedBy, IsLastValue};
ghost use Rattle.krates_text.specs.TargetTable.{description_of};

use crate::target::TargetInfo;
use std::alloc::{AllocError, Global};

impl TargetInfo {
    /// The target with this triple, as `rustc --print cfg --target TRIPLE` describes it in this text, and the target features
    /// that are enabled there, in the order of their lines. This is how to describe a target that the table of seven doesn't
    /// have.
    ///
    /// Each field is the value of the last line `KEY="VALUE"` for its key, and empty where there is none; the families and
    /// the atomics are the values of all their lines, in order. Lines of other keys and of other forms say nothing. The text
    /// isn't checked against the triple. The only error is running out of memory. Time O(length).
    ///
    /// ```text
    /// let text = "target_family=\"unix\"\ntarget_os=\"freebsd\"\nunix\n";
    /// let (info, features) = TargetInfo::from_rustc(alloc, "x86_64-unknown-freebsd", text)?;
    /// assert_eq!(rt; info.os.as_str(), "freebsd");
    /// builder.include_targets(vec![in alloc; (Target::Builtin(info), features)]?)?;
    /// ```
    pub fn from_rustc(
        alloc: Global,
        triple: &str,
        text: &str,
    ) -> Result<(TargetInfo, Vec<String>), AllocError>
        ensures described { IfOk result (λ found. IsDescribedBy triple.now text.now
            (description_of found.0) (map string_bytes found.1.items)) }
    {
        let (arch, os, env, abi) = last_values(
            alloc,
            text,
            ("target_arch", "target_os", "target_env", "target_abi"),
        )?;
        let (vendor, pointer_width, endian, panic) = last_values(
            alloc,
            text,
            (
                "target_vendor",
                "target_pointer_width",
                "target_endian",
                "panic",
            ),
        )?;
        let families = values(alloc, text, "target_family")?;
        let atomics = values(alloc, text, "target_has_atomic")?;
        let features = values(alloc, text, "target_feature")?;
        let info = TargetInfo {
            triple: String::from_str(alloc, triple)?,
            arch,
            os,
            env,
            abi,
            vendor,
            pointer_width,
            endian,
            panic,
            families,
            atomics,
        };
        Ok((info, features))
    }
}

/// The last values of four keys, in their order.
fn last_values(
    alloc: Global,
    text: &str,
    keys: (&str, &str, &str, &str),
) -> Result<(String, String, String, String), AllocError>
    ensures { IfOk result (λ values. IsLastValue text.now keys.entry.0.now (string_bytes values.0)
        × IsLastValue text.now keys.entry.1.now (string_bytes values.1)
        × IsLastValue text.now keys.entry.2.now (string_bytes values.2)
        × IsLastValue text.now keys.entry.3.now (string_bytes values.3)) }
{
    Ok((
        last_value(alloc, text, keys.0)?,
        last_value(alloc, text, keys.1)?,
        last_value(alloc, text, keys.2)?,
        last_value(alloc, text, keys.3)?,
    ))
}

/// The value that the last line for a key gives it, or an empty text.
fn last_value(alloc: Global, text: &str, key: &str) -> Result<String, AllocError>
    ensures { IfOk result (λ value. IsLastValue text.now key.now (string_bytes value)) }
{
    let mut values = values(alloc, text, key)?;
    match values.pop() {
        Some(value) => Ok(value),
        None => Ok(String::new(alloc)),
    }
}

/// The values that the lines of a text give to a key, in order.
fn values(alloc: Global, text: &str, key: &str) -> Result<Vec<String>, AllocError>
    ensures { IfOk result (λ values. AreValues text.now key.now (map string_bytes values.items)) }
{
    let mut values = Vec::new(alloc);
    for line in text.lines() {
        if let Some(value) = value_in(line, key) {
            values.push(String::from_str(alloc, value)?)?;
        }
    }
    Ok(values)
}

/// The value that a line `KEY="VALUE"` gives to a key.
fn value_in<'t>(line: &'t str, key: &str) -> Option<&'t str>
    ensures { MatchOption result (GivesNone key.now line.now) (λ value. GivesValue key.now value.now line.now) }
{
    let behind = line.strip_prefix(key)?;
    let quoted = behind.strip_prefix("=\"")?;
    quoted.strip_suffix("\"")
}
