//! Ids of the opaque form: `NAME VERSION (SOURCE)`, where a commit may follow the source after `#`.

ghost use Rattle.krates_text.specs.Cuts.{EndsWith};
ghost use Rattle.krates_ids.specs.OpaqueParts.{FindsSource, GivesOpaqueParts};

use crate::cuts::{after_front, before_end, cut_first, cut_last};
use crate::span::{Parts, span_of};

/// The source in a body, which is what follows the opening parenthesis of the text.
fn source_in<'a>(text: &str, body: &'a str) -> Option<&'a str>
    requires { EndsWith text.now body.now }
    ensures { FindsSource text.now body.now result }
{
    let Some((_, tail)) = cut_last(text, '#') else {
        return before_end(body, ')');
    };
    let Some(_) = before_end(tail, ')') else {
        return None;
    };
    let Some((source, _)) = cut_last(body, '#') else {
        return None;
    };
    Some(source)
}

/// The spans of the parts of a text of the opaque form; `None` where it is not of that form.
pub(crate) fn opaque_parts(text: &str) -> Option<Parts>
    ensures { GivesOpaqueParts text.now result }
{
    let Some((name, rest)) = cut_first(text, ' ') else {
        return None;
    };
    let Some((version, rest)) = cut_first(rest, ' ') else {
        return None;
    };
    let Some(body) = after_front(rest, '(') else {
        return None;
    };
    let Some(source) = source_in(text, body) else {
        return None;
    };
    let version_start = name.len() + 1;
    let source_start = version_start + version.len() + 2;
    Some(Parts {
        name: span_of(text, name, 0),
        version: span_of(text, version, version_start),
        source: span_of(text, source, source_start),
    })
}
