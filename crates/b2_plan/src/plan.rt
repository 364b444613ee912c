//! Plans.
ghost use Rattle.std.specs.Prelude.{◌≡◌, ℕ, List};
ghost use Rattle.std.specs.FinMap as map;
ghost use Rattle.b2_plan.specs.Plans.{maker_of};

use crate::maker_map::MakerMap;
use crate::makers::makers_of;
use crate::step::StepList;
use b2_base::fault::OutOfMemory;
use b2_base::path::Path;
use b2_base::path_list::PathList;
use std::alloc::Global;

/// What is to be built: the steps in order, the wanted files, and the output roots.
pub struct Plan {
    pub steps: StepList,
    pub wanted: PathList,
    pub roots: PathList,
    makers: MakerMap,
    ghost makers_are: { (path : List ℕ) → map.get makers path ≡ maker_of steps path },
}

/// By hand, so that dropping one is one call.
impl Drop for Plan {
    fn drop(self) {
        let Plan {
            steps,
            wanted,
            roots,
            makers,
        } = self;
        drop(steps);
        drop(wanted);
        drop(roots);
        drop(makers);
    }
}

impl Plan {
    ghost use Rattle.std.specs.Prelude.{◌≡◌, ◌≤◌, IfOk, length};
    ghost use Rattle.b2_plan.specs.Plans.{maker_of};

    /// The plan of these steps, at most 65,536.
    pub fn new(
        alloc: Global,
        steps: StepList,
        wanted: PathList,
        roots: PathList,
    ) -> Result<Plan, OutOfMemory>
        requires { length steps ≤ 65536 }
        ensures steps { IfOk result (λ plan. plan.steps ≡ steps) }
        ensures wanted { IfOk result (λ plan. plan.wanted ≡ wanted) }
        ensures roots { IfOk result (λ plan. plan.roots ≡ roots) }
    {
        let makers = makers_of(alloc, steps.as_slice())?;
        Ok(Plan {
            steps,
            wanted,
            roots,
            makers,
        })
    }

    /// The number of the first step that has the path among its outputs, or None where no step has it. Takes no memory.
    pub fn maker(&self, path: &Path) -> Option<u32>
        ensures { result ≡ maker_of self.now.steps path.now }
    {
        self.makers.get(path)
    }
}
