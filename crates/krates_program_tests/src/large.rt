//! A run over a document that is larger than any number in the sources.

use krates_cli::{Counted, Options, run};
use krates_samples::large::{large_document, long_name, push_names};
use krates_text::text::Text;
use std::alloc::Global;
use std::test::Fail;

/// What a run writes of the document.
fn lines(alloc: Global) -> Result<String, Fail> {
    let long = long_name(alloc)?;
    let mut lines = Text::new(alloc);
    lines.push_str("+ path+file:///w/a#0.1.0\n");
    push_names(&mut lines, "+ path+file:///w/", "#0.1.0\n");
    write!(
        lines,
        "+ path+file:///w/{long}#0.1.0\n- path+file:///w/z#0.1.0\n"
    );
    Ok(lines.whole()?)
}

/// Runs without options over this text.
fn run_over(alloc: Global, json: &str, output: &mut Counted<Vec<u8>>) -> Result<(), Fail> {
    let options = Options::new(alloc);
    let mut input = Counted::new(json.as_bytes());
    run(alloc, &options, &mut input, output)?;
    Ok(())
}

#[test]
fn a_large_run(rt: HostRuntime) -> Result<(), Fail> {
    let alloc = rt.alloc();
    let lines = lines(alloc)?;
    let json = large_document(alloc)?;
    let mut output = Counted::new(Vec::new(alloc));
    run_over(alloc, json.as_str(), &mut output)?;
    assert!(rt; output.get_ref().as_slice() == lines.as_bytes());
    Ok(())
}
