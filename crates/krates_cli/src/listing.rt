//! The run of `krates-list`: from the bytes that come in to the bytes that go out.

ghost use Rattle.std.specs.Prelude.{◌≡◌, ◌≢◌, IfErr, IfOk, IfSome, OnOk, string_bytes};
ghost use Rattle.std.specs.Str.{IsUtf8};
ghost use Rattle.krates_cli.specs.CargoListing.{CargoRefusal, IsCargoListing, WritesCargoBeginning, WritesCargoListing};
ghost use Rattle.krates_cli.specs.Counted.{HasFailed, inner_of};
ghost use Rattle.krates_cli.specs.Listing.{IsListing, IsListingOf, WritesBeginning, WritesListing};
ghost use Rattle.krates_cli.specs.ListingRefusals.{IsUnlisted, ListingRefusal, RunRefusal};
ghost use Rattle.krates_cli.specs.Options.{meant_request};
ghost use Rattle.krates_cli.specs.declared.run_error.RunError.TheVariants as errors;

use crate::counted::Counted;
use crate::lines::all_lines;
use crate::listed::Listed;
use crate::options::Options;
use crate::reported::Reported;
use crate::run_error::RunError;
use crate::why_kept::why_kept;
use krates::cm::MetadataCommand;
use krates::{Builder, Krates, Metadata};
use std::alloc::Global;
use std::io::{Read, Write};
use std::process::Processes;

/// The lines of a text's document under the options. It is refused as `Parse`, `Build`, `NotKept` or `Memory`.
fn listing(alloc: Global, options: &Options, text: String) -> Result<String, RunError>
    ensures is_text { IsUtf8 (string_bytes text) }
    ensures listed { IfOk result
        (λ lines. IsListing (meant_request options.now) (string_bytes text) (string_bytes lines)) }
    ensures refused { IfErr result (ListingRefusal (meant_request options.now) (string_bytes text)) }
{
    let metadata = MetadataCommand::parse(alloc, text.as_str())?;
    // the graph can use its memory
    drop(text);
    listing_of(alloc, options, metadata)
}

/// The lines of a document under the options: those of the kept packages, then those of the others; or those of the derivation of
/// the crate to be explained. The program that the options may set isn't looked at.
///
/// It is refused as `Build`, or as `NotKept` where the crate to be explained isn't kept, each only where that is true of the
/// document. It may instead return `Memory`. Time: that of the build.
///
/// ```text
/// let metadata = MetadataCommand::parse(alloc, text)?;
/// let lines = listing_of(alloc, &options, metadata)?;
/// ```
pub fn listing_of(alloc: Global, options: &Options, metadata: Metadata) -> Result<String, RunError>
    ensures listed { IfOk result
        (λ lines. IsListingOf (meant_request options.now) metadata (string_bytes lines)) }
    ensures refused { IfErr result (IsUnlisted (meant_request options.now) metadata) }
{
    let mut reported = Reported::new(alloc);
    let builder = Builder::under(alloc, options.setting(alloc)?);
    let krates: Krates<Listed> = builder.build_with_metadata(metadata, &mut reported)?;
    if let Some(krate) = &options.why {
        return why_kept(alloc, &krates, krate);
    }
    let reported = reported.into_lines()?;
    Ok(all_lines(alloc, &krates, reported.as_str())?)
}

/// Reads one document up to the end of the input, builds under the options, and writes a line `+ ` and the id for
/// each kept crate, then a line `- ` and the id for each other package, both in the order of the ids. If a crate is to be
/// explained, it writes instead a line for each step of its derivation, as its `Display` prints them; which
/// derivation it is, if there are several, isn't specified.
///
/// It is refused as `Read`, `Utf8`, `Parse`, `Build`, `NotKept` or `Write`, in this order and only where that is true of the
/// reader, of what was read, or of the writer: as `NotKept` where the document is built and doesn't keep the crate that is to be
/// explained. It may instead return `Memory`. The whole text is made before the first byte is written, so after each refusal except
/// `Write` nothing was written, and after `Write` a beginning of it. What was read is lost.
///
/// The input is read whether or not the options set a program; `run_by_cargo` runs that instead of reading. Time: that of
/// `parse` and of the build.
pub fn run<R: Read, W: Write>(
    alloc: Global,
    options: &Options,
    input: &mut Counted<R>,
    output: &mut Counted<W>,
) -> Result<(), RunError>
    ensures written { OnOk result (IfSome (R.remaining (inner_of input.old))
        (λ bytes. WritesListing (meant_request options.now) bytes (W.contents (inner_of output.old))
        (W.contents (inner_of output.new)))) }
    ensures refused { IfErr result
        (λ e. IfSome (R.remaining (inner_of input.old))
        (λ bytes. RunRefusal (meant_request options.now) bytes e)) }
    ensures read { result ≡ Err errors.Read → HasFailed input.old input.new }
    ensures write { result ≡ Err errors.Write → HasFailed output.old output.new }
    ensures beginning { result ≡ Err errors.Write → IfSome (R.remaining (inner_of input.old))
        (λ bytes. WritesBeginning (meant_request options.now) bytes (W.contents (inner_of output.old))
        (W.contents (inner_of output.new))) }
    ensures unwritten { IfErr result (λ e. e ≢ errors.Write → output.new ≡ output.old) }
{
    let bytes = input.read_to_end(alloc)?;
    let Ok(text) = String::from_utf8(bytes) else {
        return Err(RunError::Utf8);
    };
    let lines = listing(alloc, options, text)?;
    output.write_all(lines.as_bytes())
}

/// Runs the program as cargo, instead of reading a document, builds from the document that it writes under the options, and
/// writes the lines that `run` writes of it.
///
/// It is refused as `Parse` where the run has no document, else as `Build`, `NotKept` or `Write`, each only where that is true; it
/// may instead return `Memory`. After each refusal except `Write` nothing was written, and after `Write` a beginning. Time: that of
/// the run and of the build.
pub fn run_by_cargo<W: Write>(
    alloc: Global,
    options: &Options,
    cargo: &str,
    processes: &impl Processes,
    output: &mut Counted<W>,
) -> Result<(), RunError>
    ensures written { OnOk result (WritesCargoListing (meant_request options.now)
        (W.contents (inner_of output.old)) (W.contents (inner_of output.new))) }
    ensures refused { IfErr result (CargoRefusal (meant_request options.now)) }
    ensures write { result ≡ Err errors.Write → HasFailed output.old output.new }
    ensures beginning { result ≡ Err errors.Write → WritesCargoBeginning (meant_request options.now)
        (W.contents (inner_of output.old)) (W.contents (inner_of output.new)) }
    ensures unwritten { IfErr result (λ e. e ≢ errors.Write → output.new ≡ output.old) }
{
    let lines = listing_by_cargo(alloc, options, cargo, processes)?;
    output.write_all(lines.as_bytes())
}

/// The lines of the document that the program writes. It is refused as `Parse`, `Build`, `NotKept` or `Memory`.
fn listing_by_cargo(
    alloc: Global,
    options: &Options,
    cargo: &str,
    processes: &impl Processes,
) -> Result<String, RunError>
    ensures listed { IfOk result (λ lines. IsCargoListing (meant_request options.now) (string_bytes lines)) }
    ensures refused { IfErr result (λ e. CargoRefusal (meant_request options.now) e × (e ≢ errors.Write)) }
{
    let mut command = MetadataCommand::new(alloc);
    command.cargo_path(String::from_str(alloc, cargo)?);
    let metadata = command.exec(None, processes)?;
    listing_of(alloc, options, metadata)
}
