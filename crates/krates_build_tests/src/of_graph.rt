//! Questions to the graph that is built from a line, and what several of them add to their answers.

use crate::builders::krates_of;
use krates::{EnabledFeatures, FromPackage, Krates, NodeId, Package};
use krates_samples::table::Tell;
use krates_text::text::Text;
use std::marker::PhantomData;
use std::test::Fail;

/// What is reported of a graph, whose crates are held as these values.
pub(crate) trait Told<N> {
    /// Adds what is reported of the graph that is built from a line.
    fn push(text: &mut Text, krates: &Krates<N>, line: &str) -> Result<(), Fail>;
}

/// What is reported of the graph that is built from each line of a table.
pub(crate) struct OfGraph<T: Told<N>, N = Package> {
    of: PhantomData<(T, N)>,
}

impl<T: Told<N>, N: FromPackage + Drop> Tell for OfGraph<T, N> {
    fn tell(told: &mut Text, line: &str) -> Result<(), Fail> {
        let krates = krates_of::<N>(told.allocator(), line)?;
        T::push(told, &krates, line)
    }
}

/// Adds a word after a mark.
pub(crate) fn push_marked(text: &mut Text, mark: &str, word: &str) {
    text.push_str(mark);
    text.push_str(word)
}

/// Adds the number of a crate, or that there is none.
pub(crate) fn push_number(text: &mut Text, number: Option<NodeId>) {
    match number {
        Some(number) => write!(text, "{}", number.index()),
        None => text.push_str("none"),
    }
}

/// Adds the names of enabled features, each after a plus sign, and all after `set`; or what says that there is no set.
pub(crate) fn push_features(
    text: &mut Text,
    features: Option<&EnabledFeatures>,
    set: &str,
    none: &str,
) {
    let Some(features) = features else {
        return text.push_str(none);
    };
    text.push_str(set);
    for name in features {
        push_marked(text, "+", name.as_str());
    }
}
