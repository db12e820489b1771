//! Which documents are refused before they are resolved, and why.

use crate::real_documents::metadata_of;
use krates_document::Ids;
use krates_ids::Error;
use krates_resolve::admit;
use krates_samples::table::{Tell, hold_lines};
use krates_text::text::Text;
use std::test::Fail;

/// Adds how many ids of packages are read, or the text of the refusal.
fn push_admitted(told: &mut Text, admitted: &Result<Ids, Error>) {
    match admitted {
        Ok(ids) => write!(told, "{} packages", ids.packages.len()),
        Err(error) => write!(told, "{error}"),
    }
}

/// How many ids of packages are read of the document of a line, or the text of the refusal.
struct Admitted;

impl Tell for Admitted {
    fn tell(told: &mut Text, line: &str) -> Result<(), Fail> {
        let metadata = metadata_of(told.allocator(), line)?;
        push_admitted(told, &admit(told.allocator(), &metadata));
        Ok(())
    }
}

// In each of these documents the default members, and the `dependencies` of each node, have a text that isn't an id: nothing looks
// at them.
static DOCUMENTS: &str = "
a|b / nodes a b / members a a => 2 packages
 / nodes / members => 0 packages
// refused: without a graph, or with an id that isn't one
// without a graph no id is looked at
a|b / members &id=x / null graph => no resolution graph was provided
a|b / nodes / members &id=x => invalid package id: x
a&id=a~b|b / nodes => invalid package id: a b
a|b / nodes / root &id=y => invalid package id: y
a|b / nodes z&id=z => invalid package id: z
// a version that isn't semantic: of what a node depends on, and only there
a|b&id=path+file:///w/b#b@1 / nodes a => 2 packages
a|b / nodes a b@1 => invalid package id: path+file:///w/b#b@1
// an id that is doubled
// even where the root is lost, since it has no node
a|a / nodes => doubled id: path+file:///w/a#0.1.0
a|b / nodes a|a => doubled id: path+file:///w/a#0.1.0
a|b / nodes a b b&as=c => doubled id: path+file:///w/b#0.1.0
// two commits of one source
x&id=fuser~0.4.1~(git+https://github.com/cberner/fuser?branch=master#b2e7622)|y&id=fuser~0.4.1~(git+https://github.com/cberner/fuser?branch=master#3900e8a) / nodes => doubled id: fuser 0.4.1 (git+https://github.com/cberner/fuser?branch=master#3900e8a)
";

#[test]
fn documents_that_are_admitted_or_refused(rt: HostRuntime) -> Result<(), Fail> {
    hold_lines::<Admitted>(rt.alloc(), DOCUMENTS)
}
