//! Runs of the program with little memory: from the bytes of a document to the bytes of its lines. And how much a document needs that is
//! read item by item.

use crate::listing::words_of;
use krates::cm::MetadataCommand;
use krates_cli::{Counted, Options, RunError, options_of, run};
use krates_samples::documents::document;
use krates_samples::starving::{Call, granted, other_refusal, refused, starved};
use std::alloc::Global;
use std::test::Fail;

/// What is asked, a document, and a list with room for the lines.
#[derive(Drop)]
struct Listing {
    options: Options,
    json: String,
    output: Counted<Vec<u8>>,
}

/// The words of a run over the document of a crate that needs another for its tests, and the lines that it writes.
#[derive(Debug)]
struct Run {
    words: &'static str,
    lines: &'static str,
}

/// Runs that list the packages, and that write why the crate is kept that is needed for tests.
static RUNS: &[Run] = &[
    Run {
        words: "--ignore-kind dev --target x86_64-unknown-linux-gnu --exclude c",
        lines: "+ path+file:///w/a#0.1.0\n- path+file:///w/b#0.1.0\n",
    },
    Run {
        words: "--why path+file:///w/b#0.1.0",
        lines: "0 rule 1: crate path+file:///w/a#0.1.0\n1 rule 5: kept path+file:///w/a#0.1.0 -> path+file:///w/b#0.1.0 (dev) from 0\n2 rule 5: crate path+file:///w/b#0.1.0 from 1\n",
    },
];

impl Call for Run {
    type Given = Listing;

    type Answer = Result<(), RunError>;

    fn given(&self, alloc: Global) -> Result<Listing, Fail> {
        let json = document(alloc, "a b&dev|b")?;
        let room = Vec::with_capacity(alloc, 1000)?;
        let words = words_of(alloc, self.words)?;
        let Ok(options) = options_of(alloc, &words) else {
            return Err(Fail::new("no options"));
        };
        Ok(Listing {
            options,
            json,
            output: Counted::new(room),
        })
    }

    fn answer(&self, alloc: Global, given: &mut Listing) -> Result<(), RunError> {
        let mut input = Counted::new(given.json.as_bytes());
        run(alloc, &given.options, &mut input, &mut given.output)
    }

    fn is_granted(
        &self,
        _alloc: Global,
        given: &mut Listing,
        answer: &Result<(), RunError>,
    ) -> Result<bool, Fail> {
        let written = given.output.get_ref().as_slice();
        match answer {
            Ok(()) => granted(written == self.lines.as_bytes()),
            Err(RunError::Memory) => refused(written.is_empty()),
            Err(_) => other_refusal(),
        }
    }
}

#[test]
fn runs(rt: HostRuntime) -> Result<(), Fail> {
    starved(&rt, RUNS)
}

/// A document, read item by item, and once more with an empty list of packages before its own: a key that stands twice leaves it to
/// the reader of the whole.
#[derive(Debug)]
struct Reading {
    document: &'static str,
}

/// The texts of both, which are equally long and have equally many members.
#[derive(Drop)]
struct Texts {
    by_item: String,
    whole: String,
}

/// Which of them are read, and whether there is more memory than any budget has.
#[derive(Drop)]
struct Reads {
    by_item: bool,
    whole: bool,
    is_ample: bool,
}

/// The text with an empty list under this key before all that it has.
fn behind_list(alloc: Global, key: &str, json: &str) -> Result<String, Fail> {
    let rest = json.strip_prefix("{").unwrap_or("no object");
    Ok(format!(in alloc; "{{\"{key}\":[],{rest}")?)
}

/// Whether a document is read.
fn is_read(alloc: Global, text: &str) -> bool {
    match MetadataCommand::parse(alloc, text) {
        Ok(metadata) => {
            metadata.let_go();
            true
        }
        Err(_) => false,
    }
}

/// Whether there is a block of a megabyte.
fn is_ample(alloc: Global) -> bool {
    Vec::<u8>::with_capacity(alloc, 1 << 20).is_ok()
}

static READINGS: &[Reading] = &[Reading {
    document: "a b c d&dev|b|c|d",
}];

impl Call for Reading {
    type Given = Texts;

    type Answer = Reads;

    fn given(&self, alloc: Global) -> Result<Texts, Fail> {
        let json = document(alloc, self.document)?;
        let by_item = behind_list(alloc, "no_words", json.as_str())?;
        let whole = behind_list(alloc, "packages", json.as_str())?;
        Ok(Texts { by_item, whole })
    }

    fn answer(&self, alloc: Global, given: &mut Texts) -> Reads {
        Reads {
            by_item: is_read(alloc, given.by_item.as_str()),
            whole: is_read(alloc, given.whole.as_str()),
            is_ample: is_ample(alloc),
        }
    }

    fn is_granted(&self, _alloc: Global, _given: &mut Texts, answer: &Reads) -> Result<bool, Fail> {
        if answer.is_ample {
            return granted(answer.by_item && answer.whole);
        }
        if answer.whole {
            return Err(Fail::new("item by item, a document needs no less memory"));
        }
        Ok(answer.by_item)
    }
}

/// The least memory in which a document is read item by item isn't enough to read it whole.
#[test]
fn reads_item_by_item_in_less_memory(rt: HostRuntime) -> Result<(), Fail> {
    starved(&rt, READINGS)
}
