//! The whole document, written as a JSON value.

ghost use Rattle.std.specs.Prelude.{List, Option};
ghost use Rattle.krates_cm.specs.Document.{Text, default_members_view, MetadataModel, metadata_view};
ghost use Rattle.krates_cm_json.specs.Objects.{TextWritten, OptionWritten, ListWritten};
ghost use Rattle.krates_cm_json.specs.WrittenTables.{MetadataWritten};

use crate::write::object::Fields;
use crate::write::to_value::ToValue;
use krates_cm::{Metadata, WorkspaceDefaultMembers};
use serde_json::Value;
use std::alloc::{AllocError, Global};

/// `None` is null; a document leaves the key out.
impl ToValue for WorkspaceDefaultMembers {
    ghost Model = { Option (List Text) };

    ghost view = { default_members_view };

    ghost Writes = { OptionWritten (ListWritten TextWritten) };

    fn to_value(&self, alloc: Global) -> Result<Value, AllocError> {
        self.0.to_value(alloc)
    }
}

impl ToValue for Metadata {
    ghost Model = { MetadataModel };

    ghost view = { metadata_view };

    ghost Writes = { MetadataWritten };

    fn to_value(&self, alloc: Global) -> Result<Value, AllocError> {
        let fields = Fields::new(alloc)
            .with_some("build_directory", &self.build_directory)?
            .with("metadata", &self.workspace_metadata)?
            .with("packages", &self.packages)?
            .with("resolve", &self.resolve)?
            .with("target_directory", &self.target_directory)?
            .with("version", &self.version)?
            .with_some(
                "workspace_default_members",
                &self.workspace_default_members.0,
            )?
            .with("workspace_members", &self.workspace_members)?
            .with("workspace_root", &self.workspace_root)?;
        Ok(fields.object())
    }
}
