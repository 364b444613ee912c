//! What is planned for a request.
use b2_base::list::List;
use b2_base::text::Text;
use b2_plan::plan::Plan;
use b2_props::props::Props;
use b2_references::name::TargetName;

/// A line of the table of main targets: the target as `directory//name`, the place of its project and its name there, the number
/// of its alternative, from 1, and the final set of its properties.
#[derive(Drop)]
pub struct Built {
    pub target: Text,
    pub name: TargetName,
    pub alternative: usize,
    pub set: Props,
}

/// What is to be built, and the table of the main targets that were opened for it: each different line once, in order of first
/// opening.
#[derive(Drop)]
pub struct Planned {
    pub plan: Plan,
    pub table: List<Built>,
}
