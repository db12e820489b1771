//! Package specifications (Cargo Book, "Package ID Specifications").

ghost use Rattle.std.specs.Prelude.{◌≡◌, [], ◌∷◌, ◌++◌, ◌↔◌, IsTrue, IfOk, IfErr, IfSome, MatchBool, Ok, Err, Some, None, option_map, string_bytes};
ghost use Rattle.semver.specs.Identifiers.{parts_of};
ghost use Rattle.krates_cm.specs.Document.{Text, source_view, package_view};
ghost use Rattle.krates_cm.specs.Names.{version_named};
ghost use Rattle.krates_ids.specs.Escapes.{Tells};
ghost use Rattle.krates_ids.specs.PackageSpecification as grammar;
ghost use Rattle.krates_ids.specs.PackageSpecification.{Specification, specification, GivesChecked, checked, name_check, sides_checks, IsFragment, HasScheme, IsUrl, IsLocated, Gives, IsSpec, IsSpecFault, SpecFits, spec_view};
ghost use Rattle.krates_ids.specs.declared.error.Error.TheVariants.{Memory};
ghost use Rattle.krates_ids.specs.SpecificationAnswers.{given, IsRefusedBy, Answers, version_outcome, Splits, FindsUrl};

use crate::cuts::{cut_first, cut_last, has};
use crate::error::Error;
use krates_cm::{Package, Source};
use semver::Version;
use std::alloc::{AllocError, Global};

/// Which packages are meant: those with a name, and perhaps with a version and from a url.
#[derive(Debug, Drop)]
pub struct PkgSpec {
    /// The name of the packages.
    pub name: String,
    /// Their version, where only one is meant.
    pub version: Option<Version>,
    /// The url of their source, where only one is meant.
    pub url: Option<String>,
}

impl Clone for PkgSpec {
    ghost is_clone = { λ spec copy. spec_view copy ≡ spec_view spec };

    /// A copy that is equal in its name, version and url.
    fn clone(&self) -> Result<PkgSpec, AllocError> {
        Ok(PkgSpec {
            name: self.name.clone()?,
            version: self.version.clone()?,
            url: self.url.clone()?,
        })
    }
}

impl PkgSpec {
    /// Reads a package specification.
    ///
    /// A text without `/` is `NAME`, `NAME:VERSION` or `NAME@VERSION`. Any other has a url up to its first `#`, with the scheme
    /// `cargo://` where the text has none, and after it one of these or the version alone; the last piece of the url is the
    /// name where no other is given. A name has ASCII letters, digits, `-` and `_`, and may be empty.
    ///
    /// `Error::InvalidPkgSpec` says the first thing that is wrong: a `#` that ends the text; a url that ends with `/`, has no `://`
    /// or no path after it; a `:` or `@` that ends the text; the name and the version, of which the name comes first where a
    /// `:` or `@` is between them. Out of memory is `Error::Memory`. Time O(length).
    ///
    /// ```text
    /// let spec = PkgSpec::from_str(alloc, "openssl@0.10.64")?;
    /// ```
    pub fn from_str(alloc: Global, text: &str) -> Result<PkgSpec, Error>
        ensures read { IfOk result (λ spec. IsSpec text.now
            (string_bytes spec.name) (option_map parts_of spec.version) (option_map string_bytes spec.url)) }
        ensures refused { IfErr result (λ error. IsRefusedBy (IsSpecFault text.now) error) }
        ensures only_memory { (spec : Specification) → IsSpec text.now spec.name spec.version spec.url
            → IfErr result (λ error. error ≡ Memory) }
        ensures not_read { (refusal : Text) → IsSpecFault text.now refusal → IfOk result (λ _. ⊥) }
    {
        read(alloc, text)
    }

    /// Whether the package is meant: its name is equal, its version is equal in all five parts where one is given, and the url
    /// of its source is equal where it has a source and a url is given.
    ///
    /// The url of a source is what follows its first `+`, or all of it, up to its first `?`, or else its first `#`. Matching takes no
    /// memory, and time O(length of the texts that are compared).
    ///
    /// ```text
    /// let meant = metadata.packages.iter().filter(|pkg| spec.matches(pkg)).count();
    /// ```
    pub fn matches(&self, pkg: &Package) -> bool
        ensures { IsTrue result ↔ SpecFits (spec_view self.now) (package_view pkg.now) }
    {
        self.name == pkg.name
            && version_fits(&self.version, &pkg.version)
            && url_fits(&self.url, &pkg.source)
    }
}

/// Reads a specification.
fn read(alloc: Global, text: &str) -> Result<PkgSpec, Error>
    ensures { Answers spec_view (Gives text.now) result }
{
    if !has(text, '/') {
        return alone(alloc, text);
    }
    if has_scheme(text) {
        return located(alloc, text);
    }
    let text = format!(in alloc; "cargo://{text}")?;
    located(alloc, text.as_str())
}

/// The specification of these parts.
fn of_parts(
    alloc: Global,
    name: &str,
    version: Option<Version>,
    url: Option<&str>,
) -> Result<PkgSpec, Error>
    ensures { let whole = specification name.now (option_map parts_of version) (given url.entry) in
        Answers spec_view (λ outcome. outcome ≡ Ok whole) result }
{
    let name = String::from_str(alloc, name)?;
    let url = match url {
        Some(url) => Some(String::from_str(alloc, url)?),
        None => None,
    };
    Ok(PkgSpec { name, version, url })
}

/// Whether a name may have the byte.
fn is_name_byte(byte: u8) -> bool
    ensures { result ≡ grammar.is_name_byte byte }
{
    byte.is_ascii_alphanumeric() || byte == b'-' || byte == b'_'
}

/// Whether the text is a name.
fn is_name(text: &str) -> bool
    ensures { result ≡ grammar.is_name text.now }
{
    text.as_bytes().iter().all(|byte| is_name_byte(*byte))
}

/// Whether the text begins with an ASCII letter.
fn begins_with_letter(text: &str) -> bool
    ensures { result ≡ grammar.begins_with_letter text.now }
{
    match text.as_bytes().first() {
        Some(byte) => byte.is_ascii_alphabetic(),
        None => false,
    }
}

/// Reads a version.
fn version_of(alloc: Global, text: &str) -> Result<Version, Error>
    ensures { Answers parts_of (λ r. r ≡ version_outcome (version_named text.now)) result }
{
    match Version::parse(alloc, text) {
        Ok(version) => Ok(version),
        Err(error) if error == semver::Error::from(AllocError) => Err(Error::Memory),
        Err(_) => Err(Error::InvalidPkgSpec("failed to parse version")),
    }
}

/// The specification of these parts, once the name is checked.
fn with_name(
    alloc: Global,
    name: &str,
    version: Option<Version>,
    url: Option<&str>,
) -> Result<PkgSpec, Error>
    ensures { let whole = specification name.now (option_map parts_of version) (given url.entry) in
        Answers spec_view (λ outcome. outcome ≡ checked (name_check name.now ∷ []) whole) result }
{
    if is_name(name) {
        return of_parts(alloc, name, version, url);
    }
    Err(Error::InvalidPkgSpec("found an invalid character for the package name"))
}

/// The specification of a name and a version on the two sides of a separator.
fn of_both_sides(
    alloc: Global,
    name: &str,
    version: &str,
    url: Option<&str>,
) -> Result<PkgSpec, Error>
    ensures { let whole = specification name.now (version_named version.now) (given url.entry) in
        Answers spec_view (λ outcome. outcome ≡ checked (sides_checks name.now version.now) whole) result }
{
    if version.is_empty() {
        return Err(Error::InvalidPkgSpec("package spec cannot end with ':'"));
    }
    if !is_name(name) {
        return Err(Error::InvalidPkgSpec("found an invalid character for the package name"));
    }
    let version = version_of(alloc, version)?;
    of_parts(alloc, name, Some(version), url)
}

/// The parts before and after the first `:` or `@`.
fn split(text: &str) -> Option<(&str, &str)>
    ensures { Splits text.now result }
{
    let Some((before, after)) = cut_first(text, ':') else {
        return cut_first(text, '@');
    };
    if has(before, '@') {
        return cut_first(text, '@');
    }
    Some((before, after))
}

/// Reads a text that is a fragment alone.
fn alone(alloc: Global, fragment: &str) -> Result<PkgSpec, Error>
    ensures { Answers spec_view (GivesChecked (IsFragment None None fragment.now)) result }
{
    match split(fragment) {
        Some((name, version)) => of_both_sides(alloc, name, version, None),
        None => with_name(alloc, fragment, None, None),
    }
}

/// Reads the fragment after a url with this last piece.
fn after_url(alloc: Global, url: &str, piece: &str, fragment: &str) -> Result<PkgSpec, Error>
    ensures { Answers spec_view
        (GivesChecked (IsFragment (Some url.now) (Some piece.now) fragment.now)) result }
{
    if let Some((name, version)) = split(fragment) {
        return of_both_sides(alloc, name, version, Some(url));
    }
    if begins_with_letter(fragment) {
        return with_name(alloc, fragment, None, Some(url));
    }
    let version = version_of(alloc, fragment)?;
    with_name(alloc, piece, Some(version), Some(url))
}

/// Whether the text has the end of a scheme.
fn has_scheme(text: &str) -> bool
    ensures { Tells (HasScheme text.now) result }
{
    text.contains("://")
}

/// The last piece of a url.
fn last_piece(url: &str) -> Result<&str, Error>
    ensures { Answers (λ piece. piece.now) (GivesChecked (IsUrl url.now)) result }
{
    if url.ends_with("/") {
        return Err(Error::InvalidPkgSpec("url ends with /"));
    }
    if !has_scheme(url) {
        return Err(Error::InvalidPkgSpec("missing url scheme"));
    }
    let Some((before, piece)) = cut_last(url, '/') else {
        unreachable!();
    };
    if before.ends_with(":/") {
        return Err(Error::InvalidPkgSpec("path required for urls"));
    }
    Ok(piece)
}

/// Reads a text with a url.
fn located(alloc: Global, text: &str) -> Result<PkgSpec, Error>
    ensures { Answers spec_view (GivesChecked (IsLocated text.now)) result }
{
    let Some((url, fragment)) = cut_first(text, '#') else {
        let piece = last_piece(text)?;
        return with_name(alloc, piece, None, Some(text));
    };
    if fragment.is_empty() {
        return Err(Error::InvalidPkgSpec("package spec cannot end with '#'"));
    }
    let piece = last_piece(url)?;
    after_url(alloc, url, piece, fragment)
}

/// Whether no version is meant, or this.
fn version_fits(version: &Option<Version>, found: &Version) -> bool
    ensures { IsTrue result ↔ IfSome (option_map parts_of version.now) (λ v. v ≡ parts_of found.now) }
{
    match version {
        Some(version) => version == found,
        None => true,
    }
}

/// The part before the query of a source, or else before its fragment.
fn before_query(source: &str) -> &str
    ensures { grammar.IsBeforeQuery source.now result.now }
{
    if let Some((front, _)) = cut_first(source, '?') {
        return front;
    }
    match cut_first(source, '#') {
        Some((front, _)) => front,
        None => source,
    }
}

/// The url of a source, where it has one.
fn url_of(source: &str) -> Option<&str>
    ensures { FindsUrl source.now result }
{
    let front = before_query(source);
    if let Some((_, url)) = cut_first(front, '+') {
        return Some(url);
    }
    if has(source, '+') {
        return None;
    }
    Some(front)
}

/// Whether this is the url of a source.
fn is_url_of(source: &str, url: &str) -> bool
    ensures { IsTrue result ↔ grammar.IsUrlOf source.now url.now }
{
    match url_of(source) {
        Some(found) => found == url,
        None => false,
    }
}

/// Whether no url is meant, or there is no source, or the url is that of the source.
fn url_fits(url: &Option<String>, source: &Option<Source>) -> bool
    ensures { IsTrue result ↔ IfSome (option_map string_bytes url.now) (λ u.
        IfSome (option_map source_view source.now) (λ s. grammar.IsUrlOf s u)) }
{
    match (url, source) {
        (Some(url), Some(source)) => is_url_of(source.repr.as_str(), url.as_str()),
        _ => true,
    }
}
