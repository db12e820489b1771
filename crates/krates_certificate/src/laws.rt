//! Laws of what is read and written, for all data and all parts. Each is the contract of a function that does nothing.

ghost use Rattle.krates_certificate.specs.CertificateRoundTrip.{WrittenIsRead, ReadsOnce, NeverBoth, IsWritableFact, IsWritableStep, IsWritable, IsSameFact, IsSameStep, IsSameCertificate};
ghost use Rattle.krates_certificate.specs.CertificateTables.{IsFact, FactFault, IsStep, StepFault, IsCertificate, CertificateFault};
ghost use Rattle.krates_certificate.specs.Written.{FactWritten, StepWritten, CertificateWritten};

/// Whatever is written for a part is read as the same part, if each id in it was read of some text: all its texts and numbers
/// are equal, and so are its ids.
pub fn written_is_read()
    ensures fact { WrittenIsRead FactWritten IsFact IsWritableFact IsSameFact }
    ensures step { WrittenIsRead StepWritten IsStep IsWritableStep IsSameStep }
    ensures certificate { WrittenIsRead CertificateWritten IsCertificate IsWritable IsSameCertificate }
{}

/// Data is read as at most one part.
pub fn one_reading()
    ensures fact { ReadsOnce IsFact }
    ensures step { ReadsOnce IsStep }
    ensures certificate { ReadsOnce IsCertificate }
{}

/// No fault is true of data that is read: except when memory runs out, a refusal comes only where nothing is read.
pub fn faults_are_true()
    ensures fact { NeverBoth IsFact FactFault }
    ensures step { NeverBoth IsStep StepFault }
    ensures certificate { NeverBoth IsCertificate CertificateFault }
{}
