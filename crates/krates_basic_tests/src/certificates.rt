//! Certificates as JSON: what is written for steps and facts in the small language of facts (`krates_samples::facts`), what is read, and
//! why a text is refused.

use krates_certificate::{Certificate, CertificateError, CertificatePart};
use krates_rules::Fact;
use krates_samples::facts::{facts_of, steps_of};
use krates_samples::settings::all_of;
use krates_samples::table::{Row, Tell, hold, hold_lines};
use krates_text::text::Text;
use serde_json::json;
use std::alloc::AllocError;
use std::test::Fail;

/// Adds what is written for a certificate.
fn push_written(told: &mut Text, certificate: &Certificate) -> Result<(), Fail> {
    let value = certificate.to_value(told.allocator())?;
    write!(told, "{value}");
    Ok(())
}

/// What is written for the steps of a line.
struct OfSteps;

impl Tell for OfSteps {
    fn tell(told: &mut Text, line: &str) -> Result<(), Fail> {
        let derivation = steps_of(told.allocator(), line)?;
        let setting = all_of(told.allocator(), "--ignore dev", ' ')?;
        push_written(
            told,
            &Certificate::Derivation {
                setting,
                derivation,
            },
        )
    }
}

static STEPS: &str = r#"
 => {"kind":"derivation","setting":["--ignore","dev"],"steps":[]}
1 +a; 5 a>b:build 0 => {"kind":"derivation","setting":["--ignore","dev"],"steps":[{"fact":{"fact":"crate","krate":"path+file:///w/a#0.1.0"},"rule":1,"uses":[]},{"fact":{"cfg":null,"child":"path+file:///w/b#0.1.0","fact":"kept","kind":"build","parent":"path+file:///w/a#0.1.0"},"rule":5,"uses":[0]}]}
"#;

/// What is written for the facts of a line.
struct OfFacts;

impl Tell for OfFacts {
    fn tell(told: &mut Text, line: &str) -> Result<(), Fail> {
        let facts = facts_of(told.allocator(), line)?;
        let setting = Vec::new(told.allocator());
        push_written(told, &Certificate::Closed { setting, facts })
    }
}

static FACTS: &str = r#"
 => {"facts":[],"kind":"closed","setting":[]}
a/w a>b/j => {"facts":[{"fact":"feature","krate":"path+file:///w/a#0.1.0","name":"w"},{"child":"path+file:///w/b#0.1.0","fact":"toggled","name":"j","parent":"path+file:///w/a#0.1.0"}],"kind":"closed","setting":[]}
// an edge of each kind, for a target and for every target
a>b a>b:dev:cfg(unix) => {"facts":[{"cfg":null,"child":"path+file:///w/b#0.1.0","fact":"kept","kind":"normal","parent":"path+file:///w/a#0.1.0"},{"cfg":"cfg(unix)","child":"path+file:///w/b#0.1.0","fact":"kept","kind":"dev","parent":"path+file:///w/a#0.1.0"}],"kind":"closed","setting":[]}
"#;

/// Adds the words of a setting, and what is printed of each fact or step.
fn push_printed(lines: &mut Text, certificate: &Certificate) {
    match certificate {
        Certificate::Derivation {
            setting,
            derivation,
        } => write!(lines, "{setting:?}\n{derivation}"),
        Certificate::Closed { setting, facts } => {
            write!(lines, "{setting:?}\n");
            for fact in facts {
                writeln!(lines, "{fact}");
            }
        }
    }
}

/// Adds why a part is refused. If memory ran out, that is returned, as elsewhere.
fn push_refusal(told: &mut Text, error: CertificateError) -> Result<(), Fail> {
    if error.is_memory() {
        return Err(Fail::from(AllocError));
    }
    write!(told, "{error}");
    Ok(())
}

/// What is read of a text, or why it is refused.
struct Read;

impl Tell for Read {
    fn tell(told: &mut Text, text: &str) -> Result<(), Fail> {
        match Certificate::parse(told.allocator(), text) {
            Ok(certificate) => {
                push_printed(told, &certificate);
                Ok(())
            }
            Err(error) => push_refusal(told, error),
        }
    }
}

static TEXTS: &[Row] = &[
    // other keys are skipped, and of a doubled key the last value counts
    (
        r#"{"by":"me","kind":"closed","kind":"derivation","setting":["-x"],"steps":[{"rule":255,"fact":{"fact":"crate","krate":"path+file:///w/a#0.1.0"},"uses":[]},{"rule":7,"fact":{"fact":"toggled","parent":"path+file:///w/a#0.1.0","child":"path+file:///w/b#0.1.0","name":"j"},"uses":[0,0,9]}]}"#,
        "[\"-x\"]\n0 rule 255: crate path+file:///w/a#0.1.0\n1 rule 7: toggled j of path+file:///w/b#0.1.0 by path+file:///w/a#0.1.0 from 0, 0, 9\n",
    ),
    (
        r#"{"kind":"closed","setting":[],"facts":[{"fact":"feature","krate":"path+file:///w/a#0.1.0","name":"w"},{"fact":"kept","parent":"path+file:///w/a#0.1.0","child":"path+file:///w/b#0.1.0","kind":"build","cfg":"cfg(unix)"}]}"#,
        "[]\nfeature w of path+file:///w/a#0.1.0\nkept path+file:///w/a#0.1.0 -> path+file:///w/b#0.1.0 (build) 'cfg(unix)'\n",
    ),
    // what isn't JSON
    ("{", "not JSON, at line 1 column 1"),
    ("{\n  \"kind\":}", "not JSON, at line 2 column 10"),
    // keys that are missing, and of another type
    ("[]", "missing key: kind"),
    (r#"{"kind":"closed"}"#, "missing key: setting"),
    (
        r#"{"kind":"closed","setting":[1],"facts":[]}"#,
        "wrong type at key: setting",
    ),
    (
        r#"{"kind":"closed","setting":[],"steps":[]}"#,
        "missing key: facts",
    ),
    (
        r#"{"kind":"derivation","setting":[],"steps":{}}"#,
        "wrong type at key: steps",
    ),
    (
        r#"{"kind":"closed","setting":[],"facts":[{"fact":"kept","parent":"path+file:///w/a#0.1.0","child":"path+file:///w/b#0.1.0","kind":"dev"}]}"#,
        "missing key: cfg",
    ),
    // names that aren't known
    (
        r#"{"kind":"open","setting":[],"facts":[]}"#,
        "unknown name at key: kind",
    ),
    (
        r#"{"kind":"closed","setting":[],"facts":[{"fact":"lost","krate":"path+file:///w/a#0.1.0"}]}"#,
        "unknown name at key: fact",
    ),
    (
        r#"{"kind":"closed","setting":[],"facts":[{"fact":"kept","parent":"path+file:///w/a#0.1.0","child":"path+file:///w/b#0.1.0","kind":"test","cfg":null}]}"#,
        "unknown name at key: kind",
    ),
    // rules that have no number of a byte
    (
        r#"{"kind":"derivation","setting":[],"steps":[{"rule":256,"fact":{"fact":"crate","krate":"path+file:///w/a#0.1.0"},"uses":[]}]}"#,
        "number above 255 at key: rule",
    ),
    (
        r#"{"kind":"derivation","setting":[],"steps":[{"rule":-1,"fact":{"fact":"crate","krate":"path+file:///w/a#0.1.0"},"uses":[]}]}"#,
        "wrong type at key: rule",
    ),
    // texts that aren't an id
    (
        r#"{"kind":"closed","setting":[],"facts":[{"fact":"crate","krate":"a"}]}"#,
        "no package id at key: krate",
    ),
];

/// The id that is read of a text, as it is written.
struct Id;

/// Adds the text that represents the id of a kept crate.
fn push_id(told: &mut Text, fact: &Fact) -> Result<(), Fail> {
    let value = fact.to_value(told.allocator())?;
    let text = value.get("krate").and_then(|id| id.as_str());
    told.push_str(text.unwrap_or("none"));
    Ok(())
}

impl Tell for Id {
    fn tell(told: &mut Text, id: &str) -> Result<(), Fail> {
        let alloc = told.allocator();
        let value = json!(in alloc; {"fact": "crate", "krate": id})?;
        match Fact::from_value(alloc, &value) {
            Ok(fact) => push_id(told, &fact),
            Err(error) => push_refusal(told, error),
        }
    }
}

static IDS: &str = "
// most ids are written as they were
path+file:///w/a#0.1.0 => path+file:///w/a#0.1.0
a 1.0.0 (registry+https://i) => a 1.0.0 (registry+https://i)
a 1.0.0 (git+https://h/r#c0) => a 1.0.0 (git+https://h/r#c0)
// the query of a git source is decoded, and reads as it did
git+https://h/r?branch=x%2Fy#a@1.0.0 => git+https://h/r?branch=x/y#a@1.0.0
// or its last piece would be the name
git+https://h/a?branch=x%2Fy#1.0.0 => a 1.0.0 (git+https://h/a?branch=x/y#)
// or its space would begin the version
git+https://h/r?tag=x%20y#a@1.0.0 => a 1.0.0 (git+https://h/r?tag=x y#)
// or it would be decoded twice
git+https://h/r?tag=x%252Fy#a@1.0.0 => a 1.0.0 (git+https://h/r?tag=x%2Fy#)
a 1.0.0 (git+https://h/r?tag=x y#) => a 1.0.0 (git+https://h/r?tag=x y#)
a => no package id at key: krate
";

#[test]
fn certificates_are_written_and_read_or_refused(rt: HostRuntime) -> Result<(), Fail> {
    hold_lines::<OfSteps>(rt.alloc(), STEPS)?;
    hold_lines::<OfFacts>(rt.alloc(), FACTS)?;
    hold::<Read>(rt.alloc(), TEXTS)?;
    hold_lines::<Id>(rt.alloc(), IDS)
}
