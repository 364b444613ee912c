//! The rules of indirect requirements, asked for a main target.
ghost use Rattle.std.specs.Prelude.{◌≡◌, length, IfOk};
ghost use Rattle.b2_references.specs.Names.{dir_of, target_text};
ghost use Rattle.b2_alternatives.specs.Choosing.{answered, answer_by};
ghost use Rattle.b2_alternatives.specs.IndirectRules.{is_eval, is_memory, IsKnown, told_answer, Setting, IsAnswer};
ghost use Rattle.b2_alternatives.specs.declared.fault.ChoiceFault.TheVariants as faults;

use crate::fault::ChoiceFault;
use crate::reading::{ReturnedProperties, answered};
use b2_base::fault::OutOfMemory;
use b2_base::text::Text;
use b2_declared::place::IndirectRule;
use b2_evaluator::evaluate::Evaluate;
use b2_props::pair_list::PairList;
use b2_props::property_texts::property_texts;
use b2_props::props::Props;
use b2_references::index::Index;
use b2_references::name::TargetName;
use b2_refine::ask::Ask;
use std::alloc::Global;

fn bad_answer<F: Drop>(
    index: &Index<'_>,
    name: &TargetName,
    rule: &IndirectRule,
    word: Text,
) -> Result<ChoiceFault<F>, OutOfMemory>
    ensures { IfOk result (λ fault. fault ≡ faults.BadAnswer (target_text index.now name.now) rule.now.rule word) }
{
    Ok(ChoiceFault::BadAnswer {
        target: index.target_text(name.project(), name.name())?,
        rule: rule.rule.copy()?,
        word,
    })
}

/// The answer of a rule for a main target, by the texts that it returned.
fn answer<F: Drop>(
    alloc: Global,
    index: &Index<'_>,
    name: &TargetName,
    rule: &IndirectRule,
    texts: &[Text],
) -> Result<PairList, ChoiceFault<F>>
    ensures { IsAnswer (answer_by index.now name.now rule.now (answered index.now (dir_of index.now rule.now.project) texts.now)) result }
{
    let dir = index.dir_of(rule.project)?;
    match answered(alloc, index.declared(), &dir, texts)? {
        ReturnedProperties::Properties(pairs) => Ok(pairs),
        ReturnedProperties::Bad(word) => Err(bad_answer(index, name, rule, word)?),
    }
}

/// The rules of indirect requirements, asked for a main target. What a rule returns is read in the directory of its project.
#[derive(Drop)]
pub struct Asker<'a, E: Drop> {
    pub alloc: Global,
    pub index: &'a Index<'a>,
    /// The main target that is asked for.
    pub name: TargetName,
    pub evaluator: E,
}

impl<'a, E: Evaluate + Drop> Ask for Asker<'a, E> {
    ghost use Rattle.std.specs.Prelude.{◌≡◌, ◌<◌, length};
    ghost use Rattle.b2_alternatives.specs.IndirectRules.{is_eval, is_memory, IsKnown, told_answer, Setting};

    type Fault = ChoiceFault<E::Fault>;

    ghost rules = { λ s. length (s.index.now).indirect };

    ghost answer = { λ s. told_answer s.index.now s.name (E.answers s.evaluator) };

    ghost Kept = { Setting E.Fault E.Kept };

    ghost kept = { λ s. record { project = s.index.now; name = s.name; answers = E.answers s.evaluator; kept = E.kept s.evaluator } };

    ghost faults = { λ s. E.faults s.evaluator };

    ghost is_host_fault = { is_eval E.is_host_fault };

    ghost is_out_of_memory = { is_memory E.is_out_of_memory };

    ghost CanFault = { λ s. IsKnown (E.CanFault s.kept) };

    fn ask(&mut self, rule: usize, set: &Props) -> Result<PairList, ChoiceFault<E::Fault>> {
        let index = self.index;
        let rule = &index.declared().indirect.as_slice()[rule];
        let properties = property_texts(self.alloc, set.pairs())?;
        match self
            .evaluator
            .returned(rule.project, &rule.rule, rule.line, properties.as_slice())
        {
            Ok(texts) => answer(self.alloc, index, &self.name, rule, texts.as_slice()),
            Err(fault) => Err(ChoiceFault::Eval(fault)),
        }
    }
}
