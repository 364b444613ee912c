//! Why a request has no plan.
ghost use Rattle.std.specs.Prelude.{◌≡◌};
ghost use Rattle.b2_generate.specs.Wholes.{whole_choice, whole_making, whole_fault};
ghost use Rattle.b2_generate.specs.declared.fault.GenFault.TheVariants as faults;

use b2_alternatives::fault::ChoiceFault;
use b2_base::fault::OutOfMemory;
use b2_base::text::Text;
use b2_base::text_list::TextList;
use b2_making::fault::MakingFault;

/// Why a request has no plan. Targets are texts `directory//name`, as in the table of main targets. `F` is why a rule of the
/// project, or the text of a step, has no value.
#[derive(Drop)]
pub enum GenFault<F: Drop> {
    /// This text names nothing.
    NoTarget {
        name: Text,
    },
    /// Each of these main targets needs the next one, and the last one the first.
    TargetCycle {
        targets: TextList,
    },
    /// Two usage requirements of what the target depends on give a feature that is not free two values.
    UsageConflict {
        target: Text,
        feature: Text,
        first: Text,
        second: Text,
    },
    /// No alternative of a main target is settled on.
    NotChosen(ChoiceFault<F>),
    /// The steps of a main target are not made.
    NotMade(MakingFault<F>),
    OutOfMemory,
}

/// Why no alternative is settled on, but for out of memory.
fn whole_choice<F: Drop>(fault: ChoiceFault<F>) -> GenFault<F>
    ensures { result ≡ whole_choice fault }
{
    match fault {
        ChoiceFault::OutOfMemory => GenFault::OutOfMemory,
        other => GenFault::NotChosen(other),
    }
}

/// Why steps are not made, but for out of memory.
fn whole_making<F: Drop>(fault: MakingFault<F>) -> GenFault<F>
    ensures { result ≡ whole_making fault }
{
    match fault {
        MakingFault::OutOfMemory => GenFault::OutOfMemory,
        other => GenFault::NotMade(other),
    }
}

impl<F: Drop> GenFault<F> {
    /// The same fault, in which out of memory of a crate below is that of this one.
    pub fn whole(self) -> GenFault<F>
        ensures { result ≡ whole_fault self }
    {
        match self {
            GenFault::NotChosen(fault) => whole_choice(fault),
            GenFault::NotMade(fault) => whole_making(fault),
            other => other,
        }
    }
}

impl<F: Drop> From<OutOfMemory> for GenFault<F> {
    ghost use Rattle.std.specs.Prelude.{◌≡◌};

    ghost from_gives = { λ _ fault. fault ≡ faults.OutOfMemory };

    fn from(_error: OutOfMemory) -> GenFault<F> {
        GenFault::OutOfMemory
    }
}
