//! Lists of values.
use b2_base::list::List;
use b2_base::text_list::TextList;

/// Lists of texts in order.
pub type TextLists = List<TextList>;
