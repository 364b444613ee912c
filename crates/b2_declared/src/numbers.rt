//! Requirements, with numbers for the rules that answer them.
ghost use Rattle.std.specs.Prelude.{◌≡◌, [], ◌∷◌, ◌++◌, length, map, IfOk, OnOk};
ghost use Rattle.b2_declared.specs.Gathering.{numbered, rules_in, plain};

use crate::place::IndirectRule;
use crate::visit::Call;
use b2_base::fault::OutOfMemory;
use b2_base::list::List;
use b2_base::text::Text;
use b2_property_texts::reading::{Conditional, RequirementText};
use b2_props::requirement::Requirement;
use std::alloc::Global;

/// A requirement that no rule answers; takes no memory.
fn plain(usage: Conditional) -> Requirement
    ensures { result ≡ plain usage }
{
    Requirement::Plain {
        conditions: usage.conditions,
        property: usage.property,
    }
}

/// Usage requirements as requirements.
pub(crate) fn plain_all(
    alloc: Global,
    usages: List<Conditional>,
) -> Result<List<Requirement>, OutOfMemory>
    ensures { IfOk result (λ made. made ≡ map plain usages) }
{
    let mut made = List::new(alloc);
    for usage in usages.into_vec() {
        made.push(plain(usage))?;
    }
    Ok(made)
}

/// Adds a rule of a call to those of indirect requirements, and answers the requirement with its number.
fn number(
    call: &Call,
    rule: Text,
    indirect: &mut List<IndirectRule>,
) -> Result<Requirement, OutOfMemory>
    ensures made { IfOk result (λ made. made ≡ Requirement.Indirect (length indirect.old)) }
    ensures added { OnOk result (indirect.new ≡ indirect.old ++ record { project = call.now.project; rule = rule; line = call.now.line } ∷ []) }
{
    let number = indirect.as_slice().len();
    indirect.push(IndirectRule {
        project: call.project,
        rule,
        line: call.line,
    })?;
    Ok(Requirement::Indirect { rule: number })
}

/// A requirement of a call; the rule of an indirect one gets a number.
fn numbered_one(
    call: &Call,
    text: RequirementText,
    indirect: &mut List<IndirectRule>,
) -> Result<Requirement, OutOfMemory>
    ensures made { IfOk result (λ made. made ∷ [] ≡ numbered (length indirect.old) (text ∷ [])) }
    ensures added { OnOk result (indirect.new ≡ indirect.old ++ rules_in call.now (text ∷ [])) }
{
    match text {
        RequirementText::Plain(requirement) => Ok(plain(requirement)),
        RequirementText::Indirect(rule) => number(call, rule, indirect),
    }
}

/// The requirements of a call; the rules of the indirect ones are added to those before them, and give them their numbers.
pub(crate) fn numbered(
    alloc: Global,
    call: &Call,
    texts: List<RequirementText>,
    indirect: &mut List<IndirectRule>,
) -> Result<List<Requirement>, OutOfMemory>
    ensures made { IfOk result (λ made. made ≡ numbered (length indirect.old) texts) }
    ensures added { OnOk result (indirect.new ≡ indirect.old ++ rules_in call.now texts) }
{
    let mut made = List::new(alloc);
    for text in texts.into_vec() {
        let requirement = numbered_one(call, text, indirect)?;
        made.push(requirement)?;
    }
    Ok(made)
}
