//! What the words say of a bill of materials.

use crate::error::WordsError;
use crate::values::text;
use clap::ArgMatches;
use std::alloc::Global;

/// What the words say of a bill of materials. Without them the same document gives the same bytes.
#[derive(Debug, Drop)]
pub struct BillWords {
    /// The version of CycloneDX: `--spec-version`.
    pub spec_version: SpecVersion,
    /// When it was made, in UTC: `--timestamp`.
    pub timestamp: Option<String>,
    /// Its serial number, a UUID: `--serial`.
    pub serial: Option<String>,
}

/// A version of CycloneDX.
#[derive(Clone, Copy, Debug, PartialEq, Eq)]
pub enum SpecVersion {
    /// 1.5.
    V1_5,
    /// 1.6.
    V1_6,
}

impl BillWords {
    /// What the words say of it. A time or a serial number of another form is refused as wrong.
    pub(crate) fn of(alloc: Global, found: &ArgMatches<'_>) -> Result<BillWords, WordsError> {
        check_timestamp(alloc, found.get_str("timestamp"))?;
        check_serial(alloc, found.get_str("serial"))?;
        let timestamp = text(alloc, found, "timestamp")?;
        let serial = text(alloc, found, "serial")?;
        Ok(BillWords {
            spec_version: match found.get_str("spec-version") {
                Some("1.6") => SpecVersion::V1_6,
                _ => SpecVersion::V1_5,
            },
            timestamp,
            serial,
        })
    }
}

/// The form of a time in UTC, and that of a UUID (RFC 9562); in either a digit stands for any.
static TIMESTAMP: &str = "0000-00-00T00:00:00Z";

static SERIAL: &str = "00000000-0000-0000-0000-000000000000";

/// Refuses a time of another form (RFC 3339).
fn check_timestamp(alloc: Global, time: Option<&str>) -> Result<(), WordsError> {
    match time {
        Some(time) if !has_form(time, TIMESTAMP, b"0123456789") => Err(WordsError::invalid(
            alloc,
            time,
            "--timestamp <TIME>",
            "it has to be a time in UTC, as 2026-12-01T08:00:00Z",
        )),
        _ => Ok(()),
    }
}

/// Refuses a serial number of another form.
fn check_serial(alloc: Global, serial: Option<&str>) -> Result<(), WordsError> {
    match serial {
        Some(serial) if !has_form(serial, SERIAL, b"0123456789abcdef") => {
            Err(WordsError::invalid(
                alloc,
                serial,
                "--serial <UUID>",
                "it has to be a UUID in small letters, as 3e671687-395b-41f5-a30f-a58921a69b79",
            ))
        }
        _ => Ok(()),
    }
}

/// Whether a text is like a form, with any of these digits where that has a digit.
fn has_form(text: &str, form: &str, digits: &[u8]) -> bool {
    text.len() == form.len()
        && text
            .bytes()
            .zip(form.bytes())
            .all(|(byte, wanted)| is_like(byte, wanted, digits))
}

/// Whether a byte is like one of a form.
fn is_like(byte: u8, wanted: u8, digits: &[u8]) -> bool {
    if wanted == b'0' {
        digits.contains(&byte)
    } else {
        byte == wanted
    }
}
