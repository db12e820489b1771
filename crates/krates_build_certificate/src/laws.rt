//! Laws of what is read and written, for all data and all certificates. Each is the contract of a function that does nothing.

ghost use Rattle.krates_cm_json.specs.Reading.{AlwaysExact};
ghost use Rattle.krates_build_certificate.specs.BuildCertificateRoundTrip.{WrittenIsRead};
ghost use Rattle.krates_build_certificate.specs.BuildCertificateTables.{machine, step, certificate};
ghost use Rattle.krates_build_certificate.specs.BuildCertificateWritten.{MachineWritten, StepWritten, CertificateWritten};

/// Some fault is true of data exactly where nothing is read from it: so a refusal names a true fault, and data of which a fault is true is
/// refused.
pub fn faults_are_exact()
    ensures machine { AlwaysExact machine }
    ensures step { AlwaysExact step }
    ensures certificate { AlwaysExact certificate }
{}

/// Whatever is written for a part is read as that part.
pub fn written_is_read()
    ensures machine { WrittenIsRead machine MachineWritten }
    ensures step { WrittenIsRead step StepWritten }
    ensures certificate { WrittenIsRead certificate CertificateWritten }
{}
