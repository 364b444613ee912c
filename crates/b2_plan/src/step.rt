//! Steps.
use b2_base::list::List;
use b2_base::path_list::PathList;
use b2_base::text::Text;

/// A step: it runs `text`, which reads `ins` and writes `outs`. Includes of its inputs are looked for in `dirs`. A step
/// that is `always` runs in each update that needs it; one that is `notfile` owes no file at its outputs.
pub struct Step {
    pub name: Text,
    pub text: Text,
    pub outs: PathList,
    pub ins: PathList,
    pub dirs: PathList,
    pub always: bool,
    pub notfile: bool,
}

/// By hand, so that dropping one is one call.
impl Drop for Step {
    fn drop(self) {
        let Step {
            name,
            text,
            outs,
            ins,
            dirs,
            always: _,
            notfile: _,
        } = self;
        drop(name);
        drop(text);
        drop(outs);
        drop(ins);
        drop(dirs);
    }
}

/// Steps in order, seen as the list of them. The first has the number 1.
pub type StepList = List<Step>;
