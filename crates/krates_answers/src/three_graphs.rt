//! Three graphs, whatever they are built of.

use krates::Krates;

/// Three graphs, by what is ignored in them. That they are built of one document is what `Builds` adds.
#[derive(Debug, Drop)]
pub struct ThreeGraphs {
    /// Under a setting.
    pub all: Krates,
    /// Dev dependencies are ignored too.
    pub without_dev: Krates,
    /// Dev and build dependencies are ignored too.
    pub shipped: Krates,
}
