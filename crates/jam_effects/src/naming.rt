//! Names that are bound, set and defined.
ghost use Rattle.std.specs.Prelude.{◌≡◌, ◌≢◌, ◌≤◌, ℕ, List, ◌++◌, ◌∷◌, [], OnOk, OnErr, IfOk, IfErr, Ok};
ghost use Rattle.std.specs.Option.{unwrap_or};
ghost use Rattle.std.specs.FinMap as map;
ghost use Rattle.jam_expand.specs.Limits.{limit, within, IsWithin, IsLeftBy};
ghost use Rattle.jam_grammar.specs.declared.tree.Sign.TheVariants as signs;
ghost use Rattle.jam_grammar.specs.Trees.{block_tree, lists_of};
ghost use Rattle.jam_journal.specs.Scopes.{assign, bind};
ghost use Rattle.jam_journal.specs.Sizes.{size_of, capped};
ghost use Rattle.jam_scope.specs.Changes.{changed, rescoped, set_on, define_rule as with_rule, define_actions as with_actions};
ghost use Rattle.jam_meaning.specs.Forms.{bind_names as names_bound};
ghost use Rattle.jam_effects.specs.declared.fault.EvalFault.TheVariants as faults;
ghost use Rattle.jam_effects.specs.declared.flow.Flow.TheVariants as ways;
ghost use Rattle.jam_effects.specs.Naming.{set_name_in, set_names_in, set_own_in, set_all_own_in, for_each, IsMade, IsSummed, SameFrames};
ghost use Rattle.jam_effects.specs.Spots.{spot_of};

use crate::at::At;
use crate::fault::EvalFault;
use crate::flow::Flow;
use crate::words::expand_fault;
use b2_base::expand_fault::ExpandFault;
use b2_base::fault::OutOfMemory;
use b2_base::text::Text;
use b2_base::text_list::{TextList, copy_texts};
use jam_expand::limit::{LIMIT, longer};
use jam_grammar::tree::{Block, Param, Sign};
use jam_scope::body::{ActionBody, RuleBody};
use jam_scope::world::World;
use std::alloc::Global;
use std::rc::Rc;

/// Binds a name to a copy of a value in the newest frame, which is there. After an error the world is as before.
fn bind_copy(
    alloc: Global,
    world: &mut World,
    name: &Text,
    value: &[Text],
) -> Result<(), OutOfMemory>
    requires { world.old.now.scopes.frames ≢ [] }
    ensures ok { OnOk result (world.new ≡ rescoped (bind name.now value.now) world.old) }
    ensures err { OnErr result (world.new ≡ world.old) }
{
    let value = copy_texts(alloc, value)?;
    world.bind(name.as_str(), value)
}

/// Binds names to copies of a value in the newest frame, which is there. After an error some are bound.
pub fn bind_names(
    alloc: Global,
    world: &mut World,
    names: &[Text],
    value: &[Text],
) -> Result<(), OutOfMemory>
    requires { world.old.now.scopes.frames ≢ [] }
    ensures ok { OnOk result (world.new ≡ rescoped (names_bound names.now value.now) world.old) }
    ensures same { SameFrames world.old world.new }
{
    for name in names {
        bind_copy(alloc, world, name, value)?;
    }
    Ok(())
}

/// Sets a name to one text. After an error the world is as before.
#[tactic(auto, using(crate::proofs::ChangesKeepTheFrames::same_assigned, crate::proofs::ChangesKeepTheFrames::same_equal))]
pub fn set_item(
    alloc: Global,
    world: &mut World,
    name: &Text,
    text: &Text,
) -> Result<(), OutOfMemory>
    ensures ok { OnOk result (world.new ≡ rescoped (assign name.now (text.now ∷ [])) world.old) }
    ensures err { OnErr result (world.new ≡ world.old) }
    ensures same { SameFrames world.old world.new }
{
    let mut value = TextList::new(alloc);
    value.push(text.copy()?)?;
    world.set(name.as_str(), value)
}

/// The sum of a list with texts after it, from the sum of the list.
fn summed(sum: u64, texts: &[Text]) -> Result<u64, ExpandFault>
    requires { sum ≤ limit }
    ensures { (list : List (List ℕ)) → IsWithin list sum → IsSummed (list ++ texts.now) result }
{
    let mut all = sum;
    for text in texts {
        let next = longer(all, text.as_str().len())?;
        all = next;
    }
    Ok(all)
}

/// The sum of a list whose size this is. Looks through the list alone where it is too large.
fn sum_of(found: &[Text], size: u64) -> Result<u64, ExpandFault>
    requires { size ≡ capped (size_of found.now) }
    ensures { IsSummed found.now result }
{
    if size > LIMIT {
        return summed(0, found);
    }
    Ok(size)
}

/// Whether a list whose size this is is not too large with texts after it. Looks through those texts alone, unless the list itself
/// is too large.
pub(crate) fn fits(found: &[Text], size: u64, more: &[Text]) -> Result<(), ExpandFault>
    requires { size ≡ capped (size_of found.now) }
    ensures { IsLeftBy result (found.now ++ more.now) (within (found.now ++ more.now)) }
{
    let sum = sum_of(found, size)?;
    summed(sum, more)?;
    Ok(())
}

/// Adds a value to what a name is set to, unless it is too large then.
#[tactic(auto, using(crate::proofs::ChangesKeepTheFrames::same_appended, crate::proofs::ChangesKeepTheFrames::same_equal))]
fn add_name(world: &mut World, name: &Text, value: &[Text], at: &At<'_>) -> Result<(), EvalFault>
    ensures made { IsMade (set_name_in signs.Add value.now name.now world.old) (spot_of at.now) result world.new }
    ensures same { SameFrames world.old world.new }
{
    let size = world.assigned_size(name.as_str());
    if let Err(fault) = fits(world.assigned(name.as_str()), size, value) {
        return Err(expand_fault(fault, at));
    }
    world.append(name.as_str(), value)?;
    Ok(())
}

/// Sets a name to a copy of a value.
fn put_name(
    alloc: Global,
    world: &mut World,
    name: &Text,
    value: &[Text],
) -> Result<(), OutOfMemory>
    ensures ok { OnOk result (world.new ≡ rescoped (assign name.now value.now) world.old) }
    ensures err { OnErr result (world.new ≡ world.old) }
{
    let value = copy_texts(alloc, value)?;
    world.set(name.as_str(), value)
}

/// Assigns, appends, or assigns where the name has no value yet, as the sign says.
#[tactic(auto, using(crate::proofs::ChangesKeepTheFrames::same_assigned, crate::proofs::ChangesKeepTheFrames::same_equal))]
fn set_name(
    alloc: Global,
    world: &mut World,
    name: &Text,
    sign: Sign,
    value: &[Text],
    at: &At<'_>,
) -> Result<(), EvalFault>
    ensures made { IsMade (set_name_in sign value.now name.now world.old) (spot_of at.now) result world.new }
    ensures same { SameFrames world.old world.new }
{
    match sign {
        Sign::Set => Ok(put_name(alloc, world, name, value)?),
        Sign::Add => add_name(world, name, value, at),
        Sign::Fill if world.assigned(name.as_str()).is_empty() => Ok(put_name(
            alloc, world, name, value,
        )?),
        Sign::Fill => Ok(()),
    }
}

/// Sets names, one after the other.
pub fn set_names(
    alloc: Global,
    world: &mut World,
    names: &[Text],
    sign: Sign,
    value: &[Text],
    at: &At<'_>,
) -> Result<(), EvalFault>
    ensures made { IsMade (set_names_in names.now sign value.now world.old) (spot_of at.now) result world.new }
    ensures same { SameFrames world.old world.new }
{
    for name in names {
        set_name(alloc, world, name, sign, value, at)?;
    }
    Ok(())
}

/// An own value of a target, or the empty list.
fn own_value<'a>(world: &'a World, target: &str, name: &str) -> &'a [Text]
    ensures { result.now ≡ unwrap_or (map.get world.now.now.own (target.now, name.now)) [] }
{
    match world.on_target(target, name) {
        Some(value) => value,
        None => &[],
    }
}

/// Adds a value to an own value of a target, unless it is too large then.
#[tactic(auto, using(crate::proofs::ChangesKeepTheFrames::same_set_on, crate::proofs::ChangesKeepTheFrames::same_equal))]
fn add_own_name(
    world: &mut World,
    target: &Text,
    name: &Text,
    value: &[Text],
    at: &At<'_>,
) -> Result<(), EvalFault>
    ensures made { IsMade (set_own_in target.now signs.Add value.now name.now world.old) (spot_of at.now) result world.new }
    ensures same { SameFrames world.old world.new }
{
    let size = world.own_size(target.as_str(), name.as_str());
    let found = own_value(world, target.as_str(), name.as_str());
    if let Err(fault) = fits(found, size, value) {
        return Err(expand_fault(fault, at));
    }
    world.append_on(target.as_str(), name.as_str(), value)?;
    Ok(())
}

/// Sets an own value of a target to a copy of a value.
fn put_own_name(
    alloc: Global,
    world: &mut World,
    target: &Text,
    name: &Text,
    value: &[Text],
) -> Result<(), OutOfMemory>
    ensures ok { OnOk result (world.new ≡ changed (set_on target.now name.now value.now) world.old) }
    ensures err { OnErr result (world.new ≡ world.old) }
{
    let value = copy_texts(alloc, value)?;
    world.set_on(target.as_str(), name.as_str(), value)
}

/// Sets an own value of a target.
#[tactic(auto, using(crate::proofs::ChangesKeepTheFrames::same_set_on, crate::proofs::ChangesKeepTheFrames::same_equal))]
fn set_own_name(
    alloc: Global,
    world: &mut World,
    target: &Text,
    name: &Text,
    sign: Sign,
    value: &[Text],
    at: &At<'_>,
) -> Result<(), EvalFault>
    ensures made { IsMade (set_own_in target.now sign value.now name.now world.old) (spot_of at.now) result world.new }
    ensures same { SameFrames world.old world.new }
{
    match sign {
        Sign::Set => Ok(put_own_name(alloc, world, target, name, value)?),
        Sign::Add => add_own_name(world, target, name, value, at),
        Sign::Fill if own_value(world, target.as_str(), name.as_str()).is_empty() => Ok(
            put_own_name(alloc, world, target, name, value)?,
        ),
        Sign::Fill => Ok(()),
    }
}

/// Sets own values of a target, one after the other.
fn set_own_names(
    alloc: Global,
    world: &mut World,
    target: &Text,
    names: &[Text],
    sign: Sign,
    value: &[Text],
    at: &At<'_>,
) -> Result<(), EvalFault>
    ensures made { IsMade (for_each names.now (set_own_in target.now sign value.now) world.old) (spot_of at.now) result world.new }
    ensures same { SameFrames world.old world.new }
{
    for name in names {
        set_own_name(alloc, world, target, name, sign, value, at)?;
    }
    Ok(())
}

/// Sets own values of targets, one target after the other.
pub fn set_own(
    alloc: Global,
    world: &mut World,
    targets: &[Text],
    names: &[Text],
    sign: Sign,
    value: &[Text],
    at: &At<'_>,
) -> Result<(), EvalFault>
    ensures made { IsMade (set_all_own_in targets.now names.now sign value.now world.old) (spot_of at.now) result world.new }
    ensures same { SameFrames world.old world.new }
{
    for target in targets {
        set_own_names(alloc, world, target, names, sign, value, at)?;
    }
    Ok(())
}

/// The same parameters.
fn copy_list(alloc: Global, params: &[Param]) -> Result<Vec<Param>, OutOfMemory>
    ensures { IfOk result (λ made. made.items ≡ params.now) }
{
    let mut made = Vec::new(alloc);
    for param in params {
        let name = param.name.copy()?;
        made.push(Param {
            name,
            mark: param.mark,
        })?;
    }
    Ok(made)
}

/// The same lists of parameters.
fn copy_params(alloc: Global, params: &[Vec<Param>]) -> Result<Vec<Vec<Param>>, OutOfMemory>
    ensures { IfOk result (λ made. lists_of made.items ≡ lists_of params.now) }
{
    let mut made = Vec::new(alloc);
    for list in params {
        made.push(copy_list(alloc, list)?)?;
    }
    Ok(made)
}

/// What a rule does that is defined here.
fn rule_body(
    alloc: Global,
    params: &[Vec<Param>],
    block: &Rc<Block>,
    at: &At<'_>,
) -> Result<RuleBody, OutOfMemory>
    ensures { IfOk result (λ made. made ≡ record { params = lists_of params.now; block = block_tree block.now.value; path = at.now.path.now; line = at.now.line }) }
{
    let params = copy_params(alloc, params)?;
    let block = block.clone()?;
    let path = at.path.copy()?;
    Ok(RuleBody::new(params, block, path, at.line))
}

/// The present module has a rule from now on, whose statements it shares with the tree.
pub fn define_rule(
    alloc: Global,
    world: &mut World,
    name: &Text,
    params: &[Vec<Param>],
    block: &Rc<Block>,
    at: &At<'_>,
) -> Result<Flow, EvalFault>
    ensures ok { OnOk result (world.new ≡ changed (with_rule name.now (lists_of params.now) (block_tree block.now.value) at.now.path.now at.now.line) world.old) }
    ensures goes_on { IfOk result (λ way. way ≡ ways.GoesOn) }
    ensures memory { IfErr result (λ fault. fault ≡ faults.OutOfMemory) }
    ensures err { OnErr result (world.new ≡ world.old) }
{
    let body = rule_body(alloc, params, block, at)?;
    world.define_rule(name.as_str(), body)?;
    Ok(Flow::GoesOn)
}

/// The present module has actions from now on.
pub fn define_actions(
    world: &mut World,
    name: &Text,
    together: bool,
    existing: bool,
    quietly: bool,
    body: &Text,
) -> Result<Flow, EvalFault>
    ensures ok { OnOk result (world.new ≡ changed (with_actions name.now record { text = body.now; together = together; existing = existing; quietly = quietly }) world.old) }
    ensures goes_on { IfOk result (λ way. way ≡ ways.GoesOn) }
    ensures memory { IfErr result (λ fault. fault ≡ faults.OutOfMemory) }
    ensures err { OnErr result (world.new ≡ world.old) }
{
    let body = ActionBody::new(body.copy()?, together, existing, quietly);
    world.define_actions(name.as_str(), body)?;
    Ok(Flow::GoesOn)
}
