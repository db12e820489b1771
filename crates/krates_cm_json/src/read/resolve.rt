//! The resolved graph, read from JSON values.

ghost use Rattle.krates_cm.specs.Document.{DepKindInfoModel, dep_kind_info_view, NodeDepModel, node_dep_view, NodeModel, node_view, ResolveModel, resolve_view};
ghost use Rattle.krates_cm_json.specs.Tables.{dep_kind_info, node_dep, node, resolve};

use crate::JsonRef;
use crate::read::fields::{expect_object, list_or_empty, optional, or_default, required};
use crate::read::from_value::FromValue;
use krates_cm::{DepKindInfo, DependencyKind, Node, NodeDep, ReadError, Resolve};
use std::alloc::Global;

impl FromValue for DepKindInfo {
    ghost Model = { DepKindInfoModel };

    ghost view = { dep_kind_info_view };

    ghost reads = { dep_kind_info };

    #[tactic(auto, unfolding(crate::specs::Tables::dep_kind_info))]
    fn from_json_at<J: JsonRef>(
        alloc: Global,
        value: J,
        key: &'static str,
    ) -> Result<DepKindInfo, ReadError> {
        expect_object(value, key)?;
        Ok(DepKindInfo {
            kind: or_default(alloc, value, "kind", DependencyKind::Normal)?,
            target: optional(alloc, value, "target")?,
        })
    }
}

impl FromValue for NodeDep {
    ghost Model = { NodeDepModel };

    ghost view = { node_dep_view };

    ghost reads = { node_dep };

    #[tactic(auto, unfolding(crate::specs::Tables::node_dep))]
    fn from_json_at<J: JsonRef>(
        alloc: Global,
        value: J,
        key: &'static str,
    ) -> Result<NodeDep, ReadError> {
        expect_object(value, key)?;
        Ok(NodeDep {
            name: required(alloc, value, "name")?,
            pkg: required(alloc, value, "pkg")?,
            dep_kinds: list_or_empty(alloc, value, "dep_kinds")?,
        })
    }
}

impl FromValue for Node {
    ghost Model = { NodeModel };

    ghost view = { node_view };

    ghost reads = { node };

    #[tactic(auto, unfolding(crate::specs::Tables::node))]
    fn from_json_at<J: JsonRef>(
        alloc: Global,
        value: J,
        key: &'static str,
    ) -> Result<Node, ReadError> {
        expect_object(value, key)?;
        Ok(Node {
            id: required(alloc, value, "id")?,
            deps: list_or_empty(alloc, value, "deps")?,
            dependencies: required(alloc, value, "dependencies")?,
            features: list_or_empty(alloc, value, "features")?,
        })
    }
}

impl FromValue for Resolve {
    ghost Model = { ResolveModel };

    ghost view = { resolve_view };

    ghost reads = { resolve };

    #[tactic(auto, unfolding(crate::specs::Tables::resolve))]
    fn from_json_at<J: JsonRef>(
        alloc: Global,
        value: J,
        key: &'static str,
    ) -> Result<Resolve, ReadError> {
        expect_object(value, key)?;
        Ok(Resolve {
            nodes: required(alloc, value, "nodes")?,
            root: required(alloc, value, "root")?,
        })
    }
}
