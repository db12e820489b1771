//! The whole document, read from a JSON value.

ghost use Rattle.std.specs.Prelude.{List, Option};
ghost use Rattle.krates_cm.specs.Document.{Text, default_members_view, MetadataModel, metadata_view};
ghost use Rattle.krates_cm_json.specs.Reading.{text, list, present};
ghost use Rattle.krates_cm_json.specs.Tables.{metadata};

use crate::JsonRef;
use crate::read::fields::{any_or_null, expect_object, optional, or_default, required, zip_three};
use crate::read::from_value::FromValue;
use krates_cm::{Metadata, ReadError, WorkspaceDefaultMembers};
use std::alloc::Global;

/// Null isn't allowed.
impl FromValue for WorkspaceDefaultMembers {
    ghost Model = { Option (List Text) };

    ghost view = { default_members_view };

    ghost reads = { present (list text) };

    fn from_json_at<J: JsonRef>(
        alloc: Global,
        value: J,
        key: &'static str,
    ) -> Result<WorkspaceDefaultMembers, ReadError> {
        let members = Vec::from_json_at(alloc, value, key)?;
        Ok(WorkspaceDefaultMembers(Some(members)))
    }
}

impl FromValue for Metadata {
    ghost Model = { MetadataModel };

    ghost view = { metadata_view };

    ghost reads = { metadata };

    #[tactic(auto, unfolding(crate::specs::Tables::metadata))]
    fn from_json_at<J: JsonRef>(
        alloc: Global,
        value: J,
        key: &'static str,
    ) -> Result<Metadata, ReadError> {
        expect_object(value, key)?;
        let no_default = WorkspaceDefaultMembers(None);
        let packages = zip_three(
            required(alloc, value, "packages"),
            required(alloc, value, "workspace_members"),
            or_default(alloc, value, "workspace_default_members", no_default),
        );
        let graph = zip_three(
            optional(alloc, value, "resolve"),
            required(alloc, value, "workspace_root"),
            required(alloc, value, "target_directory"),
        );
        let rest = zip_three(
            optional(alloc, value, "build_directory"),
            any_or_null(alloc, value, "metadata"),
            or_default(alloc, value, "version", 0),
        );
        let (packages, graph, rest) = zip_three(packages, graph, rest)?;
        Ok(Metadata {
            packages: packages.0,
            workspace_members: packages.1,
            workspace_default_members: packages.2,
            resolve: graph.0,
            workspace_root: graph.1,
            target_directory: graph.2,
            build_directory: rest.0,
            workspace_metadata: rest.1,
            version: rest.2,
        })
    }
}
