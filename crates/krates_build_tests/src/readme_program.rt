//! The README's program that reads standard input, which the gate compares with this file, and what it does with an empty one.

use krates::cm::MetadataCommand;
use krates::{Builder, Krates, NoneFilter};
use std::io::Read;
use std::test::Fail;

/// Prints the crates that the workspace of the document in standard input needs, one a line.
fn main(rt: HostRuntime) -> Result<(), anyhow::Error> {
    let alloc = rt.alloc();
    let mut bytes = Vec::new(alloc);
    rt.reader().read_to_end(&mut bytes)?;
    let text = String::from_utf8(bytes)?;
    let document = MetadataCommand::parse(alloc, text.as_str())?;
    let krates: Krates = Builder::new(alloc).build_with_metadata(document, &mut NoneFilter)?;
    for pkg in krates.krates() {
        println!(rt; "{} {}", pkg.name, pkg.version)?;
    }
    Ok(())
}

#[test]
fn nothing_is_no_document(rt: HostRuntime) -> Result<(), Fail> {
    match main(rt) {
        Ok(()) => Err(Fail::new("nothing was read as a document")),
        Err(_) => Ok(()),
    }
}
