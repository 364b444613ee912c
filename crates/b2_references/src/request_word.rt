//! Words of a request.
use crate::meaning::Meaning;
use b2_base::list::List;
use b2_base::text::Text;

/// A word of a request, and what it names.
#[derive(Drop)]
pub(crate) struct RequestWord {
    pub(crate) text: Text,
    pub(crate) meaning: Meaning,
}

/// Words in order.
pub(crate) type WordList = List<RequestWord>;
