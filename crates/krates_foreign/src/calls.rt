//! What is asked of a document under the setting that words give.

ghost use Rattle.std.specs.Prelude.{IfErr, IfOk, string_bytes};
ghost use Rattle.krates_cli.specs.Options.{meant_request};
ghost use Rattle.krates_foreign.specs.Calls.{CheckRefusal, Checks, Draws, Explains, ListRefusal, Lists, WhyRefusal};
ghost use Rattle.krates_foreign.specs.Calls.{IsListedIn, IsNoId, IsUndrawnIn, IsUnlistedIn, NamesCrate};
ghost use Rattle.krates_foreign.specs.Documents.{OfDocument};
ghost use Rattle.krates_foreign.specs.DrawnLines.{DrawsPackages};

use crate::asked::options_in;
use crate::document::document_in;
use crate::drawn_lines::{EdgeLines, NodeLines};
use crate::judged::judged;
use crate::refusal::CallRefusal;
use krates::resolve::Setting;
use krates::{Builder, Kid, Krates, NoneFilter};
use krates_cli::{Listed, Options, OptionsError, kid_of, listing_of};
use std::alloc::Global;
use std::str;

/// The lines of a document's packages, as `krates-list` writes them: after `+ ` the kept ones, after `- ` the others, both in the
/// order of the ids. The words are options of `krates-list`, one per line, and give only a setting.
///
/// It is refused as `Words`, `Utf8`, `Parse` or `Build`, in this order, each only where that is true; as `Build` also where the graph
/// has more nodes or edges than can be numbered. It may instead return `Memory`. Time: that of reading and of the build.
///
/// ```text
/// let lines = list(alloc, document, b"--workspace\n--ignore-kind\ndev\n")?;
/// ```
pub fn list(alloc: Global, document: &[u8], words: &[u8]) -> Result<String, CallRefusal>
    ensures listed { IfOk result (λ lines. Lists document.now words.now (string_bytes lines)) }
    ensures refused { IfErr result (ListRefusal document.now words.now) }
{
    let options = options_in(alloc, words)?;
    listed(alloc, &options, document)
}

/// The lines that the options request, of the document that the bytes are. It is refused as `Utf8`, `Parse`, `Build`, `NotKept` or
/// `Memory`.
fn listed(alloc: Global, options: &Options, document: &[u8]) -> Result<String, CallRefusal>
    ensures listed { IfOk result
        (λ lines. IsListedIn (meant_request options.now) document.now (string_bytes lines)) }
    ensures refused { IfErr result (IsUnlistedIn (meant_request options.now) document.now) }
{
    let metadata = document_in(alloc, document)?;
    match listing_of(alloc, options, metadata) {
        Ok(lines) => Ok(lines),
        Err(cause) => Err(CallRefusal::of_listing(cause)),
    }
}

/// The lines of the derivation of a crate, as `krates-list --why ID` writes them. It may be any derivation of the crate that is kept.
///
/// It is refused as `Words`, `Id`, `Utf8`, `Parse`, `Build` or `NotKept`, in this order, each only where that is true. It may
/// instead return `Memory`. Time: that of reading and of the build.
///
/// ```text
/// let lines = why(alloc, document, b"", b"path+file:///w/b#0.1.0")?;
/// ```
pub fn why(alloc: Global, document: &[u8], words: &[u8], id: &[u8]) -> Result<String, CallRefusal>
    ensures explained { IfOk result (λ lines. Explains document.now words.now id.now (string_bytes lines)) }
    ensures refused { IfErr result (WhyRefusal document.now words.now id.now) }
{
    let mut options = options_in(alloc, words)?;
    options.why = Some(kid_in(alloc, id)?);
    listed(alloc, &options, document)
}

/// The id that the bytes are. It is refused as `Id` where they aren't one, or as `Memory`.
fn kid_in(alloc: Global, id: &[u8]) -> Result<Kid, CallRefusal>
    ensures read { IfOk result (NamesCrate id.now) }
    ensures refused { IfErr result (IsNoId id.now) }
{
    let Ok(text) = str::from_utf8(id) else {
        return Err(CallRefusal::Id);
    };
    match kid_of(alloc, text) {
        Ok(kid) => Ok(kid),
        Err(OptionsError::Unknown) => Err(CallRefusal::Id),
        Err(OptionsError::Memory) => Err(CallRefusal::Memory),
    }
}

/// The lines of a document's graph: one for each node, then one for each edge, both in the order of their numbers, which count from 0.
///
/// ```text
/// crate 22:path+file:///w/a#0.1.0 1 -      a kept crate, and for each declared dependency the crate that it means
/// feature 0 7:default                      an enabled feature, by the number of its crate
/// edge 0 1 dep normal                      an edge, from node to node: its kind, and the target that it is for
/// edge 0 2 depfeature build 9:cfg(unix)
/// edge 2 0 feature
/// ```
///
/// A text comes after its length in bytes and a colon. It is refused as `list` is. Time: that of reading and of the build.
pub fn graph(alloc: Global, document: &[u8], words: &[u8]) -> Result<String, CallRefusal>
    ensures drawn { IfOk result (λ lines. Draws document.now words.now (string_bytes lines)) }
    ensures refused { IfErr result (ListRefusal document.now words.now) }
{
    let options = options_in(alloc, words)?;
    let setting = options.setting(alloc)?;
    drawn(alloc, setting, document)
}

/// The lines of the graph of the document that the bytes are, under a setting. It is refused as `Utf8`, `Parse`, `Build` or `Memory`.
fn drawn(alloc: Global, setting: Setting, document: &[u8]) -> Result<String, CallRefusal>
    ensures drawn { IfOk result
        (λ lines. OfDocument document.now (λ m. DrawsPackages setting m (string_bytes lines))) }
    ensures refused { IfErr result (IsUndrawnIn setting document.now) }
{
    let builder = Builder::under(alloc, setting);
    let metadata = document_in(alloc, document)?;
    let krates: Krates<Listed> = builder.build_with_metadata(metadata, &mut NoneFilter)?;
    let graph = krates.graph();
    let (nodes, edges) = (NodeLines(graph.raw_nodes()), EdgeLines(graph.raw_edges()));
    Ok(format!(in alloc; "{nodes}{edges}")?)
}

/// The line of the verdict on a certificate: what holds, after `holds: `, as `krates_check` writes it. The certificate has to be of
/// this setting, and is judged against the document without a search.
///
/// It is refused as `Words`, `Utf8`, `Parse` or `Certificate`, in this order, each only where that is true. It may instead return
/// `Memory`. Time: that of reading and of the checker.
///
/// ```text
/// let line = check(alloc, document, b"", certificate)?;
/// ```
pub fn check(
    alloc: Global,
    document: &[u8],
    words: &[u8],
    certificate: &[u8],
) -> Result<String, CallRefusal>
    ensures checked { IfOk result
        (λ line. Checks document.now words.now certificate.now (string_bytes line)) }
    ensures refused { IfErr result (CheckRefusal document.now words.now certificate.now) }
{
    let asked = options_in(alloc, words)?;
    let document = document_in(alloc, document)?;
    let told = judged(alloc, &asked, &document, certificate);
    document.let_go();
    told
}
