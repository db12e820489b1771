//! The resolved graph, written as JSON values.

ghost use Rattle.krates_cm.specs.Document.{DepKindInfoModel, dep_kind_info_view, NodeDepModel, node_dep_view, NodeModel, node_view, ResolveModel, resolve_view};
ghost use Rattle.krates_cm_json.specs.WrittenTables.{DepKindInfoWritten, NodeDepWritten, NodeWritten, ResolveWritten};

use crate::write::object::Fields;
use crate::write::to_value::ToValue;
use krates_cm::{DepKindInfo, Node, NodeDep, Resolve};
use serde_json::Value;
use std::alloc::{AllocError, Global};

impl ToValue for DepKindInfo {
    ghost Model = { DepKindInfoModel };

    ghost view = { dep_kind_info_view };

    ghost Writes = { DepKindInfoWritten };

    fn to_value(&self, alloc: Global) -> Result<Value, AllocError> {
        let fields = Fields::new(alloc)
            .with("kind", &self.kind)?
            .with("target", &self.target)?;
        Ok(fields.object())
    }
}

impl ToValue for NodeDep {
    ghost Model = { NodeDepModel };

    ghost view = { node_dep_view };

    ghost Writes = { NodeDepWritten };

    fn to_value(&self, alloc: Global) -> Result<Value, AllocError> {
        let fields = Fields::new(alloc)
            .with("dep_kinds", &self.dep_kinds)?
            .with("name", &self.name)?
            .with("pkg", &self.pkg)?;
        Ok(fields.object())
    }
}

impl ToValue for Node {
    ghost Model = { NodeModel };

    ghost view = { node_view };

    ghost Writes = { NodeWritten };

    fn to_value(&self, alloc: Global) -> Result<Value, AllocError> {
        let fields = Fields::new(alloc)
            .with("dependencies", &self.dependencies)?
            .with("deps", &self.deps)?
            .with("features", &self.features)?
            .with("id", &self.id)?;
        Ok(fields.object())
    }
}

impl ToValue for Resolve {
    ghost Model = { ResolveModel };

    ghost view = { resolve_view };

    ghost Writes = { ResolveWritten };

    fn to_value(&self, alloc: Global) -> Result<Value, AllocError> {
        let fields = Fields::new(alloc)
            .with("nodes", &self.nodes)?
            .with("root", &self.root)?;
        Ok(fields.object())
    }
}
