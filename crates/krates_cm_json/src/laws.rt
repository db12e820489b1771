//! Laws of what is read from a JSON value and of what is written as one, each the contract of a function that does nothing.

ghost use Rattle.std.specs.Prelude.{⊤};
ghost use Rattle.krates_cm_json.specs.Reading.{AlwaysExact};
ghost use Rattle.krates_cm_json.specs.Tables.{dep_kind_info, node_dep, node, resolve, dependency, target, package_reader, metadata};
ghost use Rattle.krates_cm_json.specs.RoundTrip.{WrittenIsRead, RequirementReads, PackageRequirementsRead, RequirementsRead};
ghost use Rattle.krates_cm_json.specs.WrittenTables.{DepKindInfoWritten, NodeDepWritten, NodeWritten, ResolveWritten, DependencyWritten, TargetWritten, PackageWritten, MetadataWritten};

/// Of each table: some fault is true of a JSON value exactly where nothing is read from it.
/// So a refusal names a true fault, and a value of which a fault is true is refused.
pub fn faults_are_exact()
    ensures dep_kind_info { AlwaysExact dep_kind_info }
    ensures node_dep { AlwaysExact node_dep }
    ensures node { AlwaysExact node }
    ensures resolve { AlwaysExact resolve }
    ensures dependency { AlwaysExact dependency }
    ensures target { AlwaysExact target }
    ensures a_package { AlwaysExact package_reader }
    ensures metadata { AlwaysExact metadata }
{}

/// Of each type: whatever `to_value` may return for a value that was read reads as that value, if each text that it writes under
/// `req` reads as its requirement.
pub fn written_is_read()
    ensures dep_kind_info { WrittenIsRead dep_kind_info DepKindInfoWritten (λ _ _. ⊤) }
    ensures node_dep { WrittenIsRead node_dep NodeDepWritten (λ _ _. ⊤) }
    ensures node { WrittenIsRead node NodeWritten (λ _ _. ⊤) }
    ensures resolve { WrittenIsRead resolve ResolveWritten (λ _ _. ⊤) }
    ensures dependency { WrittenIsRead dependency DependencyWritten RequirementReads }
    ensures target { WrittenIsRead target TargetWritten (λ _ _. ⊤) }
    ensures a_package { WrittenIsRead package_reader PackageWritten PackageRequirementsRead }
    ensures metadata { WrittenIsRead metadata MetadataWritten RequirementsRead }
{}
