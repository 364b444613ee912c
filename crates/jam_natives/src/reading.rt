//! Native rules that look at their lists and the world alone.
ghost use Rattle.std.specs.Prelude.{◌≡◌, IfOk};
ghost use Rattle.b2_base.specs.Lists.{list_at};
ghost use Rattle.jam_natives.specs.Matches.{matches_of};
ghost use Rattle.jam_natives.specs.Rows.{module_list, matched, read};
ghost use Rattle.jam_natives.specs.NativeAnswers.{IsRead};

use crate::native::ReadingRule;
use crate::pattern_match::match_all;
use crate::texts::{after_start, line_of, sorted};
use b2_base::fault::OutOfMemory;
use b2_base::text::Text;
use b2_base::text_list::{TextList, copy_texts, first_of, list_at};
use jam_meaning::natives::{NativeError, NativeStep};
use jam_patterns::native_fault::NativeFault;
use jam_patterns::refusal::PatternFault;
use jam_scope::world::World;
use jam_scope::world::listing::is_text;
use std::alloc::Global;

/// The name of a module as a list; the global one has none.
fn module_list(alloc: Global, owner: &str) -> Result<TextList, OutOfMemory>
    ensures { IfOk result (λ made. made ≡ module_list owner.now) }
{
    let mut made = TextList::new(alloc);
    if owner == "" {
        return Ok(made);
    }
    if is_text(owner) {
        made.push(Text::new(alloc, owner)?)?;
    }
    Ok(made)
}

/// The groups of each text that a pattern matches; the first pattern that is refused ends it.
fn matched(alloc: Global, args: &[TextList]) -> Result<NativeStep, NativeError>
    ensures { IsRead result (λ refused. matched (matches_of refused (list_at 0 args.now) (list_at 1 args.now))) }
{
    match match_all(alloc, list_at(args, 0), list_at(args, 1)) {
        Ok(found) => Ok(NativeStep::Value(found)),
        Err(PatternFault::Refused(refusal)) => {
            Err(NativeError::Fault(NativeFault::PatternRefused { refusal }))
        }
        Err(PatternFault::OutOfMemory) => Err(NativeError::OutOfMemory),
    }
}

/// A call of a rule for each item.
fn each(alloc: Global, args: &[TextList], filter: bool) -> Result<NativeStep, OutOfMemory>
    ensures { IfOk result (λ step. step ≡ NativeStep.Each (list_at 0 args.now) (list_at 1 args.now) filter) }
{
    let rule = copy_texts(alloc, list_at(args, 0))?;
    let items = copy_texts(alloc, list_at(args, 1))?;
    Ok(NativeStep::Each {
        rule,
        items,
        filter,
    })
}

/// Calls a rule that changes nothing, with lists of its shape.
pub(crate) fn read(
    alloc: Global,
    rule: ReadingRule,
    args: &[TextList],
    world: &World,
) -> Result<NativeStep, NativeError>
    ensures { IsRead result (λ refused. read rule args.now refused world.now.now) }
{
    let first = list_at(args, 0);
    match rule {
        ReadingRule::Exit => Ok(NativeStep::Exit(line_of(alloc, first)?)),
        ReadingRule::Match => matched(alloc, args),
        ReadingRule::GetValues => {
            let found = after_start(alloc, first_of(first), list_at(args, 1))?;
            Ok(NativeStep::Value(found))
        }
        ReadingRule::RuleNames => Ok(NativeStep::Value(world.rule_names(first_of(first))?)),
        ReadingRule::VarNames => Ok(NativeStep::Value(world.var_names(first_of(first))?)),
        ReadingRule::CallerModule => Ok(NativeStep::Value(module_list(alloc, world.caller())?)),
        ReadingRule::Sort => Ok(NativeStep::Value(sorted(alloc, first)?)),
        ReadingRule::Transform => Ok(each(alloc, args, false)?),
        ReadingRule::Filter => Ok(each(alloc, args, true)?),
    }
}
