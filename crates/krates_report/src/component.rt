//! What a bill of materials says of a crate.

use crate::bill::BuiltFor;
use crate::crate_name::has_target;
use crate::json::{JsonObject, Values, string};
use crate::licence_expression::expression;
use crate::package_url::{package_url, reference};
use krates::Package;
use krates::cm::TargetKind;
use krates_answers::crate_uses::Use;
use krates_words::SpecVersion;
use serde_json::Value;
use std::alloc::{AllocError, Global};

/// A crate in a bill of materials.
#[derive(Clone, Copy)]
pub(crate) struct Component<'b> {
    /// Its package.
    pub(crate) krate: &'b Package,
    /// The root of the workspace.
    pub(crate) root: &'b str,
    /// The version of CycloneDX.
    pub(crate) spec_version: SpecVersion,
}

impl Component<'_> {
    /// What the bill says of it where it is what the bill is about.
    pub(crate) fn subject(&self, alloc: Global) -> Result<Value, AllocError> {
        self.with_texts(alloc, self.named(alloc)).object()
    }

    /// What the bill says of it where it is used for this, and built for these sides.
    pub(crate) fn used(
        &self,
        alloc: Global,
        usage: Use,
        built_for: Option<&BuiltFor>,
    ) -> Result<Value, AllocError> {
        let members = self.named(alloc).text("scope", scope_of(usage));
        let members = with_sides(alloc, built_for, members);
        self.with_texts(alloc, members).object()
    }

    /// Its type and how it is identified.
    fn named(&self, alloc: Global) -> JsonObject {
        let krate = self.krate;
        JsonObject::new(alloc)
            .text("type", type_of(krate))
            .put("bom-ref", string(reference(alloc, krate, self.root)))
            .text("name", krate.name.as_str())
            .put("version", string(krate.version.to_string(alloc)))
            .put("purl", string(package_url(alloc, krate, self.root)))
    }

    /// These members with what its manifest says of it: description, authors, licences and references.
    fn with_texts(&self, alloc: Global, members: JsonObject) -> JsonObject {
        let members = match &self.krate.description {
            Some(text) => members.text("description", text.as_str()),
            None => members,
        };
        let members = self.with_authors(alloc, members);
        let members = with_references(alloc, self.krate, members);
        with_licences(alloc, self.krate, members)
    }

    /// These members with its authors: one text up to version 1.5, and from 1.6 on a list.
    fn with_authors(&self, alloc: Global, members: JsonObject) -> JsonObject {
        let authors = &self.krate.authors;
        if authors.is_empty() {
            return members;
        }
        match self.spec_version {
            SpecVersion::V1_5 => members.put("author", joined(alloc, authors)),
            SpecVersion::V1_6 => members.put("authors", listed(alloc, authors)),
        }
    }
}

/// The authors in one text, with commas between them.
fn joined(alloc: Global, authors: &[String]) -> Result<Value, AllocError> {
    let mut text = String::new(alloc);
    for (number, author) in authors.iter().enumerate() {
        text.push_str(if number > 0 { ", " } else { "" })?;
        text.push_str(author.as_str())?;
    }
    Ok(Value::String(text))
}

/// The authors, each by name and address, as a manifest writes them: `NAME <ADDRESS>`.
fn listed(alloc: Global, authors: &[String]) -> Result<Value, AllocError> {
    let mut values = Values::new(alloc);
    for author in authors {
        let (name, address) = match author.split_once(" <") {
            Some((name, address)) => (name, address.strip_suffix('>')),
            None => (author.as_str(), None),
        };
        let contact = JsonObject::new(alloc).text("name", name);
        values.add(match address {
            Some(address) => contact.text("email", address).object(),
            None => contact.object(),
        });
    }
    values.list()
}

/// These members with where a crate is found: its repository, its website and its documentation.
fn with_references(alloc: Global, krate: &Package, members: JsonObject) -> JsonObject {
    let known = [
        ("vcs", &krate.repository),
        ("website", &krate.homepage),
        ("documentation", &krate.documentation),
    ];
    let mut references = Values::new(alloc);
    let mut has_some = false;
    for (kind, url) in known {
        if let Some(url) = url {
            has_some = true;
            references.add(
                JsonObject::new(alloc)
                    .text("type", kind)
                    .text("url", url.as_str())
                    .object(),
            );
        }
    }
    if has_some {
        members.put("externalReferences", references.list())
    } else {
        members
    }
}

/// What a crate is: a program alone, without a library, is an application.
fn type_of(krate: &Package) -> &'static str {
    let is_library = has_target(krate, TargetKind::Lib) || has_target(krate, TargetKind::ProcMacro);
    if has_target(krate, TargetKind::Bin) && !is_library {
        "application"
    } else {
        "library"
    }
}

/// Whether a crate is needed where the program runs.
fn scope_of(usage: Use) -> &'static str {
    match usage {
        Use::Shipped => "required",
        Use::Build | Use::Dev => "excluded",
    }
}

/// These members with the licence of a crate: its expression; or a name, where its text is no expression, or it has only a file.
fn with_licences(alloc: Global, krate: &Package, members: JsonObject) -> JsonObject {
    let licence = match (&krate.license, &krate.license_file) {
        (Some(text), _) => licence_of(alloc, text.as_str()),
        (None, Some(file)) => named_licence(alloc, file.as_str()),
        (None, None) => return members,
    };
    let mut licences = Values::new(alloc);
    licences.add(licence);
    members.put("licenses", licences.list())
}

/// The licence that a text is.
fn licence_of(alloc: Global, text: &str) -> Result<Value, AllocError> {
    match expression(alloc, text)? {
        Some(expression) => JsonObject::new(alloc)
            .put("expression", Ok(Value::String(expression)))
            .object(),
        None => named_licence(alloc, text),
    }
}

/// A licence of this name.
fn named_licence(alloc: Global, name: &str) -> Result<Value, AllocError> {
    let name = JsonObject::new(alloc).text("name", name);
    JsonObject::new(alloc)
        .put("license", name.object())
        .object()
}

/// These members with what a crate is built for, where that is known: a property for each side (CycloneDX, "Properties / Name-Value Store").
fn with_sides(alloc: Global, built_for: Option<&BuiltFor>, members: JsonObject) -> JsonObject {
    let Some(built_for) = built_for else {
        return members;
    };
    let mut properties = Values::new(alloc);
    if built_for.targets {
        properties.add(side(alloc, "target"));
    }
    if built_for.host {
        properties.add(side(alloc, "host"));
    }
    members.put("properties", properties.list())
}

/// The property of a side for which a crate is built.
fn side(alloc: Global, name: &str) -> Result<Value, AllocError> {
    JsonObject::new(alloc)
        .text("name", "cargo-krates:built-for")
        .text("value", name)
        .object()
}
