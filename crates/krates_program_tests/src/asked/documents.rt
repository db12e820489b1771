//! What `cargo krates` says of whole documents: differences and bills of materials.

use crate::asked::Answered;
use krates_report::licence_expression::expression;
use krates_samples::table::{Question, Row, hold, hold_lines};
use std::alloc::Global;
use std::test::Fail;

/// What one document has and another lacks.
static DIFFERENCES: &[Row] = &[
    ("diff OTHER < a b|b // a b|b", ""),
    (
        "diff OTHER < a b|b // a c|c",
        "- b v0.1.0 (/w/b)\n+ c v0.1.0 (/w/c)\n- a v0.1.0 -> b v0.1.0\n+ a v0.1.0 -> c v0.1.0\n",
    ),
    (
        "diff OTHER < a b|b // a b@0.2.0|b@0.2.0",
        "~ b 0.1.0 -> 0.2.0\n- b v0.1.0 (/w/b)\n+ b v0.2.0 (/w/b)\n- a v0.1.0 -> b v0.1.0\n+ a v0.1.0 -> b v0.2.0\n",
    ),
    (
        "diff OTHER < a b c|b|c // a b|b c|c",
        "- a v0.1.0 -> c v0.1.0\n+ b v0.1.0 -> c v0.1.0\n",
    ),
    ("diff OTHER -e no-dev < a b&dev|b // a|b", ""),
    (
        "diff --json OTHER < a b|b // a b@0.2.0 c|b@0.2.0|c b@0.2.0",
        "{\n  \"answer\": {\n    \"added\": [\n      {\n        \"id\": \"path+file:///w/b#b@0.2.0\",\n        \"name\": \"b\",\n        \"source\": null,\n        \"version\": \"0.2.0\"\n      },\n      {\n        \"id\": \"path+file:///w/c#0.1.0\",\n        \"name\": \"c\",\n        \"source\": null,\n        \"version\": \"0.1.0\"\n      }\n    ],\n    \"added_dependencies\": [\n      {\n        \"from\": \"path+file:///w/a#0.1.0\",\n        \"to\": \"path+file:///w/b#b@0.2.0\"\n      },\n      {\n        \"from\": \"path+file:///w/c#0.1.0\",\n        \"to\": \"path+file:///w/b#b@0.2.0\"\n      },\n      {\n        \"from\": \"path+file:///w/a#0.1.0\",\n        \"to\": \"path+file:///w/c#0.1.0\"\n      }\n    ],\n    \"added_features\": [],\n    \"changed\": [\n      {\n        \"from\": [\n          \"0.1.0\"\n        ],\n        \"name\": \"b\",\n        \"to\": [\n          \"0.2.0\"\n        ]\n      }\n    ],\n    \"removed\": [\n      {\n        \"id\": \"path+file:///w/b#0.1.0\",\n        \"name\": \"b\",\n        \"source\": null,\n        \"version\": \"0.1.0\"\n      }\n    ],\n    \"removed_dependencies\": [\n      {\n        \"from\": \"path+file:///w/a#0.1.0\",\n        \"to\": \"path+file:///w/b#0.1.0\"\n      }\n    ],\n    \"removed_features\": []\n  },\n  \"rules\": \"krates\",\n  \"version\": 1\n}\n",
    ),
    // the same workspace in two folders
    ("diff OTHER < a b|b // elsewhere a b|b", ""),
    (
        "diff OTHER < a b|b // elsewhere a b@0.2.0|b@0.2.0",
        "~ b 0.1.0 -> 0.2.0\n- b v0.1.0 (/w/b)\n+ b v0.2.0 (/home/me/w/b)\n- a v0.1.0 -> b v0.1.0\n+ a v0.1.0 -> b v0.2.0\n",
    ),
    // features of crates that both have
    (
        "diff OTHER < a;x= y= / nodes a;x // a;x= y= / nodes a;y",
        "- a v0.1.0 (/w/a) feature `x`\n+ a v0.1.0 (/w/a) feature `y`\n",
    ),
    // by the status
    ("diff OTHER --exit-code < a b|b // a b|b", ""),
    (
        "diff OTHER --exit-code < a|b // a b|b",
        "no: + b v0.1.0 (/w/b)\n+ a v0.1.0 -> b v0.1.0\n",
    ),
    ("diff OTHER < a", "refused: there is no second document"),
];

/// The bill of materials.
static BILLS: &[Row] = &[
    (
        "sbom < a b&dev&crates.io|b&crates.io",
        "{\n  \"$schema\": \"http://cyclonedx.org/schema/bom-1.5.schema.json\",\n  \"bomFormat\": \"CycloneDX\",\n  \"components\": [\n    {\n      \"bom-ref\": \"registry+https://github.com/rust-lang/crates.io-index#b@0.1.0\",\n      \"name\": \"b\",\n      \"purl\": \"pkg:cargo/b@0.1.0\",\n      \"scope\": \"excluded\",\n      \"type\": \"library\",\n      \"version\": \"0.1.0\"\n    }\n  ],\n  \"dependencies\": [\n    {\n      \"dependsOn\": [\n        \"registry+https://github.com/rust-lang/crates.io-index#b@0.1.0\"\n      ],\n      \"ref\": \"pkg:cargo/a@0.1.0?download_url=file%3A%2F%2Fa\"\n    },\n    {\n      \"dependsOn\": [],\n      \"ref\": \"registry+https://github.com/rust-lang/crates.io-index#b@0.1.0\"\n    }\n  ],\n  \"metadata\": {\n    \"component\": {\n      \"bom-ref\": \"pkg:cargo/a@0.1.0?download_url=file%3A%2F%2Fa\",\n      \"name\": \"a\",\n      \"purl\": \"pkg:cargo/a@0.1.0?download_url=file%3A%2F%2Fa\",\n      \"type\": \"library\",\n      \"version\": \"0.1.0\"\n    },\n    \"tools\": {\n      \"components\": [\n        {\n          \"name\": \"cargo-krates\",\n          \"type\": \"application\",\n          \"version\": \"0.22.0\"\n        }\n      ]\n    }\n  },\n  \"specVersion\": \"1.5\",\n  \"version\": 1\n}\n",
    ),
    (
        "sbom --json < a",
        "{\n  \"$schema\": \"http://cyclonedx.org/schema/bom-1.5.schema.json\",\n  \"bomFormat\": \"CycloneDX\",\n  \"components\": [],\n  \"dependencies\": [\n    {\n      \"dependsOn\": [],\n      \"ref\": \"pkg:cargo/a@0.1.0?download_url=file%3A%2F%2Fa\"\n    }\n  ],\n  \"metadata\": {\n    \"component\": {\n      \"bom-ref\": \"pkg:cargo/a@0.1.0?download_url=file%3A%2F%2Fa\",\n      \"name\": \"a\",\n      \"purl\": \"pkg:cargo/a@0.1.0?download_url=file%3A%2F%2Fa\",\n      \"type\": \"library\",\n      \"version\": \"0.1.0\"\n    },\n    \"tools\": {\n      \"components\": [\n        {\n          \"name\": \"cargo-krates\",\n          \"type\": \"application\",\n          \"version\": \"0.22.0\"\n        }\n      ]\n    }\n  },\n  \"specVersion\": \"1.5\",\n  \"version\": 1\n}\n",
    ),
    // a name with what divides the parts of a package url
    (
        "sbom < a?vcs_url=y#z / members a?vcs_url=y#z",
        "{\n  \"$schema\": \"http://cyclonedx.org/schema/bom-1.5.schema.json\",\n  \"bomFormat\": \"CycloneDX\",\n  \"components\": [],\n  \"dependencies\": [\n    {\n      \"dependsOn\": [],\n      \"ref\": \"pkg:cargo/a%3Fvcs_url%3Dy%23z@0.1.0?download_url=file%3A%2F%2Fa%3Fvcs_url%3Dy%23z\"\n    }\n  ],\n  \"metadata\": {\n    \"component\": {\n      \"bom-ref\": \"pkg:cargo/a%3Fvcs_url%3Dy%23z@0.1.0?download_url=file%3A%2F%2Fa%3Fvcs_url%3Dy%23z\",\n      \"name\": \"a?vcs_url=y#z\",\n      \"purl\": \"pkg:cargo/a%3Fvcs_url%3Dy%23z@0.1.0?download_url=file%3A%2F%2Fa%3Fvcs_url%3Dy%23z\",\n      \"type\": \"library\",\n      \"version\": \"0.1.0\"\n    },\n    \"tools\": {\n      \"components\": [\n        {\n          \"name\": \"cargo-krates\",\n          \"type\": \"application\",\n          \"version\": \"0.22.0\"\n        }\n      ]\n    }\n  },\n  \"specVersion\": \"1.5\",\n  \"version\": 1\n}\n",
    ),
    // of a workspace, in another version, with a time and a serial number
    (
        "sbom --spec-version 1.6 --timestamp 2026-12-01T08:00:00Z --serial 3e671687-395b-41f5-a30f-a58921a69b79 < a|b / members a b",
        "{\n  \"$schema\": \"http://cyclonedx.org/schema/bom-1.6.schema.json\",\n  \"bomFormat\": \"CycloneDX\",\n  \"components\": [\n    {\n      \"bom-ref\": \"pkg:cargo/a@0.1.0?download_url=file%3A%2F%2Fa\",\n      \"name\": \"a\",\n      \"purl\": \"pkg:cargo/a@0.1.0?download_url=file%3A%2F%2Fa\",\n      \"scope\": \"required\",\n      \"type\": \"library\",\n      \"version\": \"0.1.0\"\n    },\n    {\n      \"bom-ref\": \"pkg:cargo/b@0.1.0?download_url=file%3A%2F%2Fb\",\n      \"name\": \"b\",\n      \"purl\": \"pkg:cargo/b@0.1.0?download_url=file%3A%2F%2Fb\",\n      \"scope\": \"required\",\n      \"type\": \"library\",\n      \"version\": \"0.1.0\"\n    }\n  ],\n  \"dependencies\": [\n    {\n      \"dependsOn\": [\n        \"pkg:cargo/a@0.1.0?download_url=file%3A%2F%2Fa\",\n        \"pkg:cargo/b@0.1.0?download_url=file%3A%2F%2Fb\"\n      ],\n      \"ref\": \"workspace\"\n    },\n    {\n      \"dependsOn\": [],\n      \"ref\": \"pkg:cargo/a@0.1.0?download_url=file%3A%2F%2Fa\"\n    },\n    {\n      \"dependsOn\": [],\n      \"ref\": \"pkg:cargo/b@0.1.0?download_url=file%3A%2F%2Fb\"\n    }\n  ],\n  \"metadata\": {\n    \"component\": {\n      \"bom-ref\": \"workspace\",\n      \"name\": \"w\",\n      \"type\": \"application\"\n    },\n    \"timestamp\": \"2026-12-01T08:00:00Z\",\n    \"tools\": {\n      \"components\": [\n        {\n          \"name\": \"cargo-krates\",\n          \"type\": \"application\",\n          \"version\": \"0.22.0\"\n        }\n      ]\n    }\n  },\n  \"serialNumber\": \"urn:uuid:3e671687-395b-41f5-a30f-a58921a69b79\",\n  \"specVersion\": \"1.6\",\n  \"version\": 1\n}\n",
    ),
];

/// The expression that the text of a licence is.
struct Expression;

impl Question for Expression {
    fn told(alloc: Global, line: &str) -> Result<String, Fail> {
        match expression(alloc, line)? {
            Some(expression) => Ok(expression),
            None => Ok(String::from_str(alloc, "none")?),
        }
    }
}

static EXPRESSIONS: &str = r"
MIT => MIT
MIT/Apache-2.0 => MIT OR Apache-2.0
Apache-2.0 / MIT => Apache-2.0 OR MIT
(MIT OR Apache-2.0) AND Unicode-DFS-2016 => (MIT OR Apache-2.0) AND Unicode-DFS-2016
Apache-2.0  WITH LLVM-exception => Apache-2.0 WITH LLVM-exception
MIT OR ((LGPL-2.1+)) => MIT OR ((LGPL-2.1+))
MIT/ => none
MIT AND/OR Apache-2.0 => none
My own licence => none
(MIT => none
MIT) => none
MIT () => none
MIT OR => none
MIT; Apache-2.0 => none
";

#[test]
fn expressions_of_licences(rt: HostRuntime) -> Result<(), Fail> {
    hold_lines::<Expression>(rt.alloc(), EXPRESSIONS)
}

#[test]
fn differences_and_bills(rt: HostRuntime) -> Result<(), Fail> {
    hold::<Answered>(rt.alloc(), DIFFERENCES)?;
    hold::<Answered>(rt.alloc(), BILLS)
}
