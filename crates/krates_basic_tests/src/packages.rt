//! Values that are read of JSON, and the packages that specifications are asked about, and whose features an index corrects.

use krates_cm::Package;
use krates_cm_json::FromValue;
use krates_samples::failures::Failures;
use krates_samples::table::{Question, compare, row_of};
use serde_json::Value;
use std::alloc::Global;
use std::fmt::Debug;
use std::test::Fail;

/// The value that JSON is.
pub(crate) fn read<T: FromValue>(alloc: Global, json: &str) -> Result<T, Fail> {
    let value = Value::from_str(alloc, json)?;
    Ok(T::from_value(alloc, &value)?)
}

/// The answer to a line with what surrounds it.
pub(crate) fn told_within<Q: Question>(
    alloc: Global,
    around: (&str, &str),
    line: &str,
) -> Result<String, Fail> {
    let (before, behind) = around;
    let json = format!(in alloc; "{before}{line}{behind}")?;
    Q::told(alloc, json.as_str())
}

/// Compares the answer to each line, with what surrounds it, with the one that is known; fails where some differ, and names each of
/// their lines.
pub(crate) fn hold_within<Q: Question>(
    alloc: Global,
    around: (&str, &str),
    table: &str,
) -> Result<(), Fail> {
    let mut failures = Failures::new(alloc);
    for line in table.lines() {
        if let Some((line, answer)) = row_of(line) {
            failures.compare(line, told_within::<Q>(alloc, around, line), answer)?;
        }
    }
    failures.reported()
}

/// Fails where another value shows other fields than the one that was read of a text.
pub(crate) fn same_fields<T: Debug>(
    alloc: Global,
    json: &str,
    other: &T,
    read: &T,
) -> Result<(), Fail> {
    let other = format!(in alloc; "{other:?}")?;
    let read = format!(in alloc; "{read:?}")?;
    compare(json, other.as_str(), read.as_str())
}

/// The package of this name and version, with this source and these features as JSON.
pub(crate) fn package(
    alloc: Global,
    name: &str,
    version: &str,
    source: &str,
    features: &str,
) -> Result<Box<Package>, Fail> {
    let json = format!(in alloc;
        "{{\"name\":\"{name}\",\"version\":\"{version}\",\"id\":\"x\",\"source\":{source},\"dependencies\":[],\"targets\":[],\"features\":{features},\"manifest_path\":\"m\"}}"
    )?;
    Ok(Box::new(alloc, read(alloc, json.as_str())?)?)
}
