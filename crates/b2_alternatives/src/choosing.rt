//! The alternative of a main target, and what its requirements make of a set.
ghost use Rattle.std.specs.Prelude.{◌≡◌, true, Some, All, length, IfOk};
ghost use Rattle.b2_props.specs.Sets.{IsSet};
ghost use Rattle.b2_props.specs.Requirements.{AsksBelow};
ghost use Rattle.b2_references.specs.Names.{features, is_target, target_text};
ghost use Rattle.b2_evaluator.specs.Answers.{Answers};
ghost use Rattle.b2_alternatives.specs.declared.fault.ChoiceFault.TheVariants as faults;
ghost use Rattle.b2_alternatives.specs.Choosing.{full_set, requirements};
ghost use Rattle.b2_alternatives.specs.IndirectRules.{Leaves};
ghost use Rattle.b2_alternatives.specs.Picking.{IsPicked, IsSelection, IsSelected};
ghost use Rattle.b2_declared.specs.Numbered.{IsNumbered};
ghost use Rattle.b2_alternatives.specs.Settling.{Settles, SettlesFor, ChoosesBy, GivesBy, RefusesBy};

use crate::asker::Asker;
use crate::conditions::{conditions, requirements};
use crate::fault::ChoiceFault;
use b2_base::fault::OutOfMemory;
use b2_declared::place::Target;
use b2_evaluator::evaluate::Evaluate;
use b2_property_texts::missing::with_missing;
use b2_props::props::Props;
use b2_props::refinement::{expand, set_of};
use b2_props::requirement::Requirement;
use b2_references::index::Index;
use b2_references::name::TargetName;
use b2_refine::choice::{Choice, choose as choose_among};
use b2_refine::evaluate::evaluate;
use b2_refine::fault::RefineFault;
use std::alloc::Global;

/// The alternative that was settled on, by its number from 1, and the set of its properties.
#[derive(Drop)]
pub struct ChosenAlternative<'a> {
    pub number: usize,
    pub target: &'a Target,
    pub set: Props,
}

/// The alternative that a full set chooses, with this set.
#[derive(Drop)]
struct FullChoice<'a> {
    full: Props,
    number: usize,
    target: &'a Target,
}

/// Which alternative a full set chooses.
enum TargetChoice<'a> {
    None,
    Ambiguous { i: usize, k: usize },
    One { number: usize, target: &'a Target },
}

/// The full set of a main target: the set joined with the values of the `default-build` for features that it does not name, of
/// which one that is not free takes the first value and a free one all; made whole.
pub fn full_set(
    alloc: Global,
    index: &Index<'_>,
    name: &TargetName,
    set: &Props,
) -> Result<Props, OutOfMemory>
    ensures value { IfOk result (λ full. full ≡ full_set index.now name.now set.now) }
    ensures set { IfOk result (IsSet (features index.now)) }
{
    let registry = &index.declared().registry;
    let defaults = index.default_build(name.project(), name.name())?;
    let pairs = with_missing(alloc, set.pairs(), defaults)?;
    let joined = set_of(alloc, registry, pairs.as_slice())?;
    expand(alloc, registry, &joined)
}

/// The alternative of a main target that a full set chooses.
fn pick<'a>(
    alloc: Global,
    index: &Index<'a>,
    name: &TargetName,
    full: &Props,
) -> Result<TargetChoice<'a>, OutOfMemory>
    ensures { IfOk result (IsPicked index.now name.now full.now) }
{
    let alternatives = index.alternatives(name.project(), name.name())?;
    let conditions = conditions(alloc, &index.declared().registry, alternatives.as_slice())?;
    match choose_among(conditions.as_slice(), full) {
        Choice::None => Ok(TargetChoice::None),
        Choice::Ambiguous { i, k } => Ok(TargetChoice::Ambiguous { i, k }),
        Choice::One(number) => Ok(TargetChoice::One {
            number,
            target: alternatives[number - 1],
        }),
    }
}

fn no_alternative<F: Drop>(
    index: &Index<'_>,
    name: &TargetName,
    full: Props,
) -> Result<ChoiceFault<F>, OutOfMemory>
    ensures { IfOk result (λ fault. fault ≡ faults.NoAlternative (target_text index.now name.now) full) }
{
    Ok(ChoiceFault::NoAlternative {
        target: index.target_text(name.project(), name.name())?,
        set: full,
    })
}

/// Neither of two viable alternatives is better.
fn ambiguous<F: Drop>(
    index: &Index<'_>,
    name: &TargetName,
    full: Props,
    i: usize,
    k: usize,
) -> Result<ChoiceFault<F>, OutOfMemory>
    ensures { IfOk result (λ fault. fault ≡ faults.AmbiguousAlternative (target_text index.now name.now) full i k) }
{
    Ok(ChoiceFault::AmbiguousAlternative {
        target: index.target_text(name.project(), name.name())?,
        set: full,
        i,
        k,
    })
}

/// The requirements of a main target do not settle.
fn unstable<F: Drop>(
    index: &Index<'_>,
    name: &TargetName,
    first: Props,
    second: Props,
) -> Result<ChoiceFault<F>, OutOfMemory>
    ensures { IfOk result (λ fault. fault ≡ faults.Unstable (target_text index.now name.now) first second) }
{
    Ok(ChoiceFault::Unstable {
        target: index.target_text(name.project(), name.name())?,
        first,
        second,
    })
}

/// The alternative of a main target for a set, or why there is none.
fn select<'a, F: Drop>(
    alloc: Global,
    index: &Index<'a>,
    name: &TargetName,
    set: &Props,
) -> Result<FullChoice<'a>, ChoiceFault<F>>
    ensures { IsSelected index.now name.now set.now result }
{
    let full = full_set(alloc, index, name, set)?;
    match pick(alloc, index, name, &full)? {
        TargetChoice::None => Err(no_alternative(index, name, full)?),
        TargetChoice::Ambiguous { i, k } => Err(ambiguous(index, name, full, i, k)?),
        TargetChoice::One { number, target } => Ok(FullChoice {
            full,
            number,
            target,
        }),
    }
}

/// What requirements make of a full set, for the main target that is asked for.
fn settle<E: Evaluate + Drop>(
    asker: &mut Asker<'_, E>,
    full: &Props,
    required: &[Requirement],
) -> Result<Props, ChoiceFault<E::Fault>>
    requires set { IsSet (features (asker.old.index.now)) full.now }
    requires rules { All (AsksBelow (length (asker.old.index.now).indirect)) required.now }
    ensures { Settles E.Evaluate asker.old asker.new asker.old.name full.now required.now result }
{
    let index = asker.index;
    match evaluate(
        asker.alloc,
        &index.declared().registry,
        full,
        required,
        asker,
    ) {
        Ok(set) => Ok(set),
        Err(RefineFault::Asked(fault)) => Err(fault),
        Err(RefineFault::OutOfMemory) => Err(ChoiceFault::OutOfMemory),
        Err(RefineFault::Unstable { first, second }) => {
            Err(unstable(index, &asker.name, first, second)?)
        }
    }
}

/// What the requirements of an alternative of a main target make of a full set.
fn settle_for<E: Evaluate + Drop>(
    asker: &mut Asker<'_, E>,
    name: &TargetName,
    full: &Props,
    target: &Target,
) -> Result<Props, ChoiceFault<E::Fault>>
    requires set { IsSet (features (asker.old.index.now)) full.now }
    requires rules { All (AsksBelow (length (asker.old.index.now).indirect)) (requirements (asker.old.index.now) target.now) }
    ensures { SettlesFor E.Evaluate asker.old asker.new name.now full.now target.now result }
{
    let required = requirements(asker.alloc, asker.index, target)?;
    asker.name = name.copy()?;
    settle(asker, full, required.as_slice())
}

/// What the alternative that was selected for a main target settles on.
fn settle_on<'a, E: Evaluate + Drop>(
    asker: &mut Asker<'a, E>,
    name: &TargetName,
    set: &Props,
    selected: FullChoice<'a>,
) -> Result<ChosenAlternative<'a>, ChoiceFault<E::Fault>>
    requires numbered { IsNumbered (asker.old.index.now) }
    requires selected { IsSelection (asker.old.index.now) name.now set.now selected }
    ensures { ChoosesBy E.Evaluate asker.old asker.new name.now set.now result }
{
    match settle_for(asker, name, &selected.full, selected.target) {
        Err(fault) => Err(fault),
        Ok(set) => Ok(ChosenAlternative {
            number: selected.number,
            target: selected.target,
            set,
        }),
    }
}

fn choose_by<'a, E: Evaluate + Drop>(
    asker: &mut Asker<'a, E>,
    name: &TargetName,
    set: &Props,
) -> Result<ChosenAlternative<'a>, ChoiceFault<E::Fault>>
    requires { IsNumbered (asker.old.index.now) }
    ensures { ChoosesBy E.Evaluate asker.old asker.new name.now set.now result }
{
    match select(asker.alloc, asker.index, name, set) {
        Err(fault) => Err(fault),
        Ok(selected) => settle_on(asker, name, set, selected),
    }
}

/// The alternative of a main target for a set, and what its requirements make of the full set. The requirements are those of its
/// projects, from Jamroot down, then its own; they are evaluated in rounds. An alternative is chosen by the properties that it
/// requires itself without conditions and that are neither free nor incidental.
pub fn choose<'a, E: Evaluate + Drop>(
    asker: &mut Asker<'a, E>,
    name: &TargetName,
    set: &Props,
) -> Result<ChosenAlternative<'a>, ChoiceFault<E::Fault>>
    requires { IsNumbered (asker.old.index.now) }
    ensures chosen { (told : Answers E.Fault) → E.answers asker.old.evaluator ≡ Some told → GivesBy asker.old told name.now set.now result }
    ensures refused { (told : Answers E.Fault) → E.answers asker.old.evaluator ≡ Some told → RefusesBy E.Evaluate asker.old told name.now set.now result }
    ensures set { IfOk result (λ c. IsSet (features (asker.old.index.now)) c.set) }
    ensures target { IfOk result (λ _. is_target (asker.old.index.now) name.now ≡ true) }
    ensures leaves { Leaves E.answers E.kept E.faults E.is_host_fault E.is_out_of_memory E.CanFault asker.old.evaluator asker.new.evaluator result }
    ensures project { asker.new.index.now ≡ asker.old.index.now }
{
    choose_by(asker, name, set)
}
