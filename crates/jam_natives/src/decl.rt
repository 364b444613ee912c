//! Recorded calls of declaring rules.
use b2_base::list::List;
use b2_base::path::Path;
use b2_base::text_list::TextList;
use jam_journal::name::Name;

/// A call of a declaring rule.
#[derive(Drop)]
pub struct Decl {
    /// The name of the declaring rule.
    pub rule: Name,
    /// The module in which it was called.
    pub module: Name,
    /// The directory of the project that was being loaded, which owns the call.
    pub dir: Path,
    /// The line of the call; the first line is 1.
    pub line: u32,
    /// The arguments of the call, a list each.
    pub lists: List<TextList>,
    /// Whether it is a call of `project` whose output roots are refused.
    pub refused: bool,
}
