//! Steps whose texts are asked for, and the answers.
use b2_base::path_list::PathList;
use b2_base::text::Text;
use b2_base::text_list::TextList;

/// A step whose text is asked for: the name of its rule and actions, the module in which they are found, the line of a file at
/// which it was declared, its outputs, inputs and properties.
#[derive(Drop)]
pub struct StepJob {
    pub name: Text,
    pub module: Text,
    pub path: Text,
    pub outs: PathList,
    pub ins: PathList,
    pub props: TextList,
    pub line: u32,
}

/// The text of a step, and what its rule noted.
#[derive(Drop)]
pub struct StepText {
    pub text: Text,
    pub depends: PathList,
    pub always: bool,
    pub notfile: bool,
}
