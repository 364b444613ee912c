//! Open main targets.
use crate::name_table::NameTable;
use b2_alternatives::choosing::ChosenAlternative;
use b2_alternatives::dependencies::Dependencies;
use b2_base::list::List;
use b2_props::props::Props;
use b2_references::name::TargetName;

/// A main target that is open.
pub(crate) struct Frame<'a> {
    pub(crate) name: TargetName,
    /// The set that it was asked for with.
    pub(crate) asked: Props,
    pub(crate) chosen: ChosenAlternative<'a>,
    /// Where it stands.
    pub(crate) needs: Dependencies,
    /// The places of the nodes that were generated for it, in order.
    pub(crate) done: List<usize>,
    /// These places by their main targets.
    pub(crate) places: NameTable<usize>,
    /// Neither it nor an open target below it was generated before this place.
    pub(crate) earliest: usize,
}

/// By hand, so that dropping an open main target is one call.
impl Drop for Frame<'_> {
    fn drop(self) {
        let Frame {
            name,
            asked,
            chosen,
            needs,
            done,
            places,
            earliest: _,
        } = self;
        drop(name);
        drop(asked);
        drop(chosen);
        drop(needs);
        drop(done);
        drop(places);
    }
}
