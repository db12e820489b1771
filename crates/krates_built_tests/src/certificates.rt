//! Certificates of what cargo builds as JSON: what is written for one that was read, and why a text is refused.

use krates_build_certificate::{BuildCertificate, BuildCertificateError};
use krates_cm_json::ToValue;
use krates_samples::table::{Tell, hold_lines};
use krates_text::text::Text;
use std::alloc::AllocError;
use std::test::Fail;

/// What is written for the certificate that a text is, or why it isn't one.
struct Again;

/// Adds why a text is refused. If memory ran out, that is returned, as elsewhere.
fn push_refusal(told: &mut Text, error: BuildCertificateError) -> Result<(), Fail> {
    if error.is_memory() {
        return Err(Fail::from(AllocError));
    }
    write!(told, "{error}");
    Ok(())
}

/// Adds what is written for a certificate.
fn push_value(told: &mut Text, certificate: &BuildCertificate) -> Result<(), AllocError> {
    let value = certificate.to_value(told.allocator())?;
    write!(told, "{value}");
    Ok(())
}

/// Adds what is written for a certificate, and lets it go.
fn push_written(told: &mut Text, certificate: BuildCertificate) -> Result<(), AllocError> {
    let pushed = push_value(told, &certificate);
    drop(certificate);
    pushed
}

impl Tell for Again {
    fn tell(told: &mut Text, text: &str) -> Result<(), Fail> {
        match BuildCertificate::parse(told.allocator(), text) {
            Ok(certificate) => Ok(push_written(told, certificate)?),
            Err(error) => push_refusal(told, error),
        }
    }
}

static TEXTS: &str = r#"
// what is written is read as it was
{"machines":[],"setting":[],"steps":[]} => {"machines":[],"setting":[],"steps":[]}
{"facts":[],"machines":[],"setting":[]} => {"facts":[],"machines":[],"setting":[]}
// keys are written in order, others are skipped, and of a doubled key the last value counts
{"by":"me","steps":[],"steps":[{"uses":[0,7],"fact":["met","path+file:///w/a#0.1.0","root"]}],"setting":["--resolver","2"],"machines":[{"triple":"linux","cfg":"unix\ntarget_os=\"linux\""}]} => {"machines":[{"cfg":"unix\ntarget_os=\"linux\"","triple":"linux"}],"setting":["--resolver","2"],"steps":[{"fact":["met","path+file:///w/a#0.1.0","root"],"uses":[0,7]}]}
{"setting":[],"machines":[],"facts":[["met","a","root"],[]]} => {"facts":[["met","a","root"],[]],"machines":[],"setting":[]}
// steps count before facts
{"setting":[],"machines":[],"facts":1,"steps":[]} => {"machines":[],"setting":[],"steps":[]}
// what isn't JSON
{ => not JSON, at line 1 column 1
// keys that are missing, and of another type
[] => missing key: setting
{"setting":[]} => missing key: machines
{"setting":[],"machines":[]} => missing key: facts
{"setting":"2","machines":[],"facts":[]} => wrong type at key: setting
{"setting":[],"machines":[{"triple":"linux"}],"facts":[]} => missing key: cfg
{"setting":[],"machines":[],"steps":[{"fact":[1],"uses":[]}]} => wrong type at key: fact
{"setting":[],"machines":[],"steps":[{"fact":[],"uses":[-1]}]} => wrong type at key: uses
{"setting":[],"machines":[],"facts":["met"]} => wrong type at key: facts
"#;

#[test]
fn build_certificates_are_written_and_read_or_refused(rt: HostRuntime) -> Result<(), Fail> {
    hold_lines::<Again>(rt.alloc(), TEXTS)
}
