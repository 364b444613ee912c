//! A requirement.
use crate::pair_list::PairList;
use b2_base::text::Text;

/// What a target or a project requires.
#[derive(Drop)]
pub enum Requirement {
    /// A property that is required where a set has all of the conditions; with none, always.
    Plain {
        conditions: PairList,
        property: (Text, Text),
    },
    /// The properties that a rule answers for a set. The rule is named by its number, from 0.
    Indirect {
        rule: usize,
    },
}
