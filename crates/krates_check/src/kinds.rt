//! Which kind of certificate bytes are, where they don't hold as one of the other kind.

use krates_build_certificate::BuildCertificate;
use krates_certificate::Certificate;
use std::alloc::Global;
use std::str;

/// Whether these bytes are a certificate by krates.
pub(crate) fn is_by_krates(alloc: Global, bytes: &[u8]) -> bool {
    match str::from_utf8(bytes) {
        Ok(text) => Certificate::parse(alloc, text).is_ok(),
        Err(_) => false,
    }
}

/// Whether these bytes are a certificate by build.
pub(crate) fn is_by_build(alloc: Global, bytes: &[u8]) -> bool {
    match str::from_utf8(bytes) {
        Ok(text) => BuildCertificate::parse(alloc, text).is_ok(),
        Err(_) => false,
    }
}
