//! What was generated.
use b2_base::list::List;
use b2_props::pair_list::PairList;
use b2_props::props::Props;
use b2_references::name::TargetName;
use b2_virtual::entry::Supply;

/// A main target that was generated. Nodes have places, from 0, in order of completion.
#[derive(Drop)]
pub struct Node {
    pub name: TargetName,
    /// The set that it was asked for with.
    pub asked: Props,
    /// The number of its alternative, from 1.
    pub number: usize,
    /// The final set of its properties.
    pub set: Props,
    /// Its files and the libraries that it carries on.
    pub supply: Supply,
    /// Its usage requirements.
    pub usage: PairList,
    /// The places of what was generated for it, in order.
    pub children: List<usize>,
    /// Each main target that was opened for it, it among them, was generated first at this place or before it.
    pub latest: usize,
    /// The place of the node before it that is of the same main target.
    pub previous: Option<usize>,
}
