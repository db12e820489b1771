//! The names that are written.

ghost use Rattle.std.specs.Prelude.{◌≡◌};
ghost use Rattle.krates_certificate.specs.CertificateViews.{kind_name};

use krates_rules::DepKind;

/// The name of a kind of dependencies.
pub(crate) fn kind_name(kind: DepKind) -> &'static str
    ensures { result.now ≡ kind_name kind }
{
    match kind {
        DepKind::Normal => "normal",
        DepKind::Build => "build",
        DepKind::Dev => "dev",
    }
}
