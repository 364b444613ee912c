//! A generator.
use b2_base::text::Text;
use b2_base::text_list::TextList;
use b2_props::pair_list::PairList;

/// What makes files of each of some types of a file of one of others, in sets that have all of the required properties.
pub struct Generator {
    pub id: Text,
    pub sources: TextList,
    pub targets: TextList,
    pub required: PairList,
}

/// By hand, so that dropping a generator is one call: a derived drop takes it apart wherever one is dropped.
impl Drop for Generator {
    fn drop(self) {
        let Generator {
            id,
            sources,
            targets,
            required,
        } = self;
        drop(id);
        drop(sources);
        drop(targets);
        drop(required);
    }
}
