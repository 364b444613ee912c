//! Opening main targets.
ghost use Rattle.std.specs.Prelude.{◌≡◌, ◌==◌, ◌||◌, not, length, [], true, Some, map, IfOk, OnOk};
ghost use Rattle.b2_props.specs.Sets.{IsSet};
ghost use Rattle.b2_evaluator.specs.Answers.{Answers};
ghost use Rattle.b2_references.specs.Names.{features, is_target, is_same, is_among};
ghost use Rattle.b2_declared.specs.Numbered.{IsNumbered};
ghost use Rattle.b2_alternatives.specs.Settling.{GivesBy};
ghost use Rattle.b2_generate.specs.Machine.{names_of};
ghost use Rattle.b2_generate.specs.Opening.{frames, IsOpened, OpensBy, RefusesBy, texts_from, AddsFrom};
ghost use Rattle.b2_generate.specs.ToldOutcomes.{Leaves};

use crate::fault::GenFault;
use crate::frame::Frame;
use crate::name_table::NameTable;
use crate::stack::Stack;
use b2_alternatives::asker::Asker;
use b2_alternatives::choosing::{ChosenAlternative, choose};
use b2_alternatives::dependencies::Dependencies;
use b2_base::fault::OutOfMemory;
use b2_base::list::List;
use b2_base::text::Text;
use b2_base::text_list::TextList;
use b2_evaluator::evaluate::Evaluate;
use b2_props::props::Props;
use b2_references::index::Index;
use b2_references::name::TargetName;
use std::alloc::Global;

/// A main target that is open, by what was chosen for it.
fn frame_of<'a>(
    alloc: Global,
    index: &Index<'_>,
    name: TargetName,
    asked: Props,
    chosen: ChosenAlternative<'a>,
    earliest: usize,
) -> Result<Frame<'a>, OutOfMemory>
    requires set { IsSet (features index.now) chosen.set }
    requires target { is_target index.now name ≡ true }
    ensures opened { IfOk result (IsOpened index.now name asked earliest) }
    ensures chosen { IfOk result (λ f. f.chosen ≡ chosen.entry) }
{
    let first = chosen.set.copy(alloc)?;
    let needs = Dependencies::new(alloc, index, chosen.target, first)?;
    Ok(Frame {
        name,
        asked,
        chosen,
        needs,
        done: List::new(alloc),
        places: NameTable::new(alloc),
        earliest,
    })
}

/// What is chosen for a main target.
#[tactic(none)]
fn chosen_for<'a, E: Evaluate + Drop>(
    asker: &mut Asker<'a, E>,
    name: &TargetName,
    asked: &Props,
) -> Result<ChosenAlternative<'a>, GenFault<E::Fault>>
    requires { IsNumbered (asker.old.index.now) }
    ensures chosen { (told : Answers E.Fault) → E.answers asker.old.evaluator ≡ Some told → GivesBy asker.old told name.now asked.now result }
    ensures refused { (told : Answers E.Fault) → E.answers asker.old.evaluator ≡ Some told → RefusesBy E.Evaluate asker.old told name.now asked.now result }
    ensures set { IfOk result (λ c. IsSet (features (asker.old.index.now)) c.set) }
    ensures target { IfOk result (λ _. is_target (asker.old.index.now) name.now ≡ true) }
    ensures leaves { Leaves E.answers E.kept E.faults E.is_host_fault E.is_out_of_memory E.CanFault asker.old.evaluator asker.new.evaluator result }
    ensures project { asker.new.index.now ≡ asker.old.index.now }
{
    match choose(asker, name, asked) {
        Ok(chosen) => Ok(chosen),
        Err(fault) => Err(GenFault::NotChosen(fault)),
    }
}

/// A main target is opened: its alternative is chosen, and nothing was generated for it.
pub(crate) fn begin<'a, E: Evaluate + Drop>(
    asker: &mut Asker<'a, E>,
    name: TargetName,
    asked: Props,
    earliest: usize,
) -> Result<Frame<'a>, GenFault<E::Fault>>
    requires { IsNumbered (asker.old.index.now) }
    ensures opened { IfOk result (IsOpened (asker.old.index.now) name asked earliest) }
    ensures chosen { (told : Answers E.Fault) → E.answers asker.old.evaluator ≡ Some told → OpensBy asker.old told name asked result }
    ensures refused { (told : Answers E.Fault) → E.answers asker.old.evaluator ≡ Some told → RefusesBy E.Evaluate asker.old told name asked result }
    ensures leaves { Leaves E.answers E.kept E.faults E.is_host_fault E.is_out_of_memory E.CanFault asker.old.evaluator asker.new.evaluator result }
    ensures project { asker.new.index.now ≡ asker.old.index.now }
{
    let chosen = chosen_for(asker, &name, &asked)?;
    let frame = frame_of(asker.alloc, asker.index, name, asked, chosen, earliest)?;
    Ok(frame)
}

/// Whether an open main target is one of a cycle: one before it is, or it has this name.
fn is_of_cycle(targets: &[Text], frame: &Frame<'_>, name: &TargetName) -> bool
    ensures { result ≡ (not (length targets.now == 0) || is_same name.now frame.now.name) }
{
    !targets.is_empty() || name.equals(&frame.name)
}

/// Adds the text of an open main target, where it has this name, or one before it has.
#[tactic(none)]
fn push_next(
    index: &Index<'_>,
    frame: &Frame<'_>,
    name: &TargetName,
    targets: &mut TextList,
) -> Result<(), OutOfMemory>
    ensures { AddsFrom index.now name.now frame.now.name targets.old targets.new result }
{
    if is_of_cycle(targets.as_slice(), frame, name) {
        targets.push(index.target_text(frame.name.project(), frame.name.name())?)
    } else {
        Ok(())
    }
}

/// Adds the texts of those of some open main targets that stand from the first of a name on.
fn push_from(
    index: &Index<'_>,
    frames: &[Frame<'_>],
    name: &TargetName,
    targets: &mut TextList,
) -> Result<(), OutOfMemory>
    requires { targets.old ≡ [] }
    ensures { OnOk result (targets.new ≡ texts_from index.now name.now (map (λ f. f.name) frames.now)) }
{
    for frame in frames {
        push_next(index, frame, name, targets)?;
    }
    Ok(())
}

/// The targets of a cycle, from the open one of this name to the newest.
#[tactic(none)]
pub(crate) fn cycle(
    alloc: Global,
    index: &Index<'_>,
    stack: &Stack<'_>,
    name: &TargetName,
) -> Result<TextList, OutOfMemory>
    requires { is_among (names_of (frames stack.now)) name.now ≡ true }
    ensures { IfOk result (λ made. made ≡ texts_from index.now name.now (names_of (frames stack.now))) }
{
    let mut targets = TextList::new(alloc);
    push_from(index, stack.below.as_slice(), name, &mut targets)?;
    targets.push(index.target_text(stack.newest.name.project(), stack.newest.name.name())?)?;
    Ok(targets)
}
