//! The texts of steps.
ghost use Rattle.std.specs.Prelude.{◌≡◌, ◌<◌, ◌++◌, All, length, IfOk, IfErr, IsErrOf, OnOk, string_bytes};
ghost use Rattle.std.specs.Option.{option_copied};
ghost use Rattle.b2_base.specs.Bytes.{HasNoZero};
ghost use Rattle.jam_meaning.specs.Rolled.{is_text, own_at};
ghost use Rattle.jam_graph.specs.Graphs.{IsReady};
ghost use Rattle.jam_graph.specs.Loading.{IsWhole};
ghost use Rattle.jam_engine.specs.Acts.{acts_at};
ghost use Rattle.jam_engine.specs.Scenes.{HavePaths};
ghost use Rattle.jam_engine.specs.Steps.{in_parens, and_so_on, whole_text};
ghost use Rattle.jam_engine.specs.Texting.{body_in, IsExpansion, IsExpandFault, IsTextOf, AreTextsOf};

use crate::joining::actions_of;
use crate::scene::Scene;
use b2_base::fault::OutOfMemory;
use b2_base::look::Look;
use b2_base::path::Path;
use b2_base::text::Text;
use b2_base::text_list::TextList;
use jam_effects::fault::{EvalCause, EvalFault};
use jam_expand::body::{ExpandFault, expand_body};
use jam_graph::fault::JamFault;
use jam_graph::graph::{Act, Graph};
use jam_scope::world::World;
use std::alloc::Global;

/// What names stand for in the body of an act.
#[derive(Drop)]
struct BodyNames<'a> {
    world: &'a World,
    targets: &'a [Text],
    outs: &'a [Text],
    ins: &'a [Text],
}

/// Whether a name is one of two bytes.
fn is_either(name: &str, first: u8, second: u8) -> bool
    ensures { result ≡ is_text first second name.now }
{
    match name.as_bytes() {
        [byte] => *byte == first || *byte == second,
        _ => false,
    }
}

/// The own value that the first of some targets has for a name. Takes no memory.
fn own<'a>(world: &'a World, targets: &[Text], name: &str) -> Option<&'a [Text]>
    ensures { option_copied result ≡ own_at targets.now name.now world.now.now }
{
    match targets {
        [] => None,
        [target, ..] => world.on_target(target.as_str(), name),
    }
}

impl Look for BodyNames<'_> {
    ghost use Rattle.jam_engine.specs.Texting.{names_of};

    ghost answer = { λ names name. names_of names.outs.now names.ins.now names.targets.now names.world.now.now name };

    /// `<` and `1` stand for the paths of the targets, `>` and `2` for those of the sources; others for the own value of the first
    /// target, and else for what they are in the present module.
    fn look(&self, name: &str) -> &[Text] {
        if is_either(name, b'<', b'1') {
            return self.outs;
        }
        if is_either(name, b'>', b'2') {
            return self.ins;
        }
        match own(self.world, self.targets, name) {
            Some(value) => value,
            None => self.world.look(name),
        }
    }
}

/// The texts of the paths of some targets.
fn path_texts(alloc: Global, scene: &Scene, targets: &[Text]) -> Result<TextList, OutOfMemory>
    ensures { IfOk result (HavePaths scene.now targets.now) }
{
    let paths = scene.paths(alloc, targets)?;
    let mut texts = TextList::new(alloc);
    for path in paths.as_slice() {
        texts.push(path.as_text().copy()?)?;
    }
    Ok(texts)
}

/// The fault of a body without an expansion, at the file and the act's line.
fn expand_fault(path: &Path, line: u32, fault: ExpandFault) -> Result<JamFault, OutOfMemory>
    ensures { IfOk result (IsExpandFault path.now line fault) }
{
    match fault {
        ExpandFault::OutOfMemory => Ok(JamFault::OutOfMemory),
        fault => {
            let path = path.as_text().copy()?;
            let cause = EvalCause::Expand(fault);
            Ok(JamFault::Eval(EvalFault::At { path, line, cause }))
        }
    }
}

/// What the body of an act stands for, in the module of the newest frame.
fn expanded(
    alloc: Global,
    world: &World,
    scene: &Scene,
    act: &Act,
    body: &Text,
) -> Result<Text, ExpandFault>
    ensures { IsExpansion world.now.now scene.now act.now body.now result }
{
    let outs = path_texts(alloc, scene, act.targets.as_slice())?;
    let ins = path_texts(alloc, scene, act.sources.as_slice())?;
    let names = BodyNames {
        world,
        targets: act.targets.as_slice(),
        outs: outs.as_slice(),
        ins: ins.as_slice(),
    };
    expand_body(alloc, body.as_str(), &names)
}

/// The body of an act's actions.
fn body_of(world: &World, act: &Act) -> Result<Text, OutOfMemory>
    ensures { IfOk result (λ body. body ≡ body_in world.now.now act.now) }
{
    match actions_of(world, act) {
        Some(actions) => actions.text().copy(),
        None => Err(OutOfMemory),
    }
}

/// The text of an act: what its body stands for in the module of its actions. The world is as before.
fn act_text(alloc: Global, graph: &mut Graph, scene: &Scene, act: &Act) -> Result<Text, JamFault>
    requires { IsReady graph.old }
    ensures same { graph.new ≡ graph.old }
    ensures text { IsTextOf graph.old scene.now act.now result }
    ensures no_host { ¬ IsErrOf result JamFault.Host }
    ensures whole { IfErr result IsWhole }
{
    let body = body_of(&graph.world, act)?;
    graph.world.enter(act.module.as_str())?;
    let made = expanded(alloc, &graph.world, scene, act, &body);
    graph.world.leave();
    match made {
        Ok(text) => Ok(text),
        Err(fault) => Err(expand_fault(&graph.path, act.line, fault)?),
    }
}

/// The texts of some acts, in order.
pub(crate) fn texts_of(
    alloc: Global,
    graph: &mut Graph,
    scene: &Scene,
    acts: &[Act],
    set: &[usize],
) -> Result<TextList, JamFault>
    requires ready { IsReady graph.old }
    requires within { All (λ place. place < length acts.now) set.now }
    ensures same { graph.new ≡ graph.old }
    ensures texts { AreTextsOf graph.old scene.now (acts_at acts.now set.now) result }
    ensures no_host { ¬ IsErrOf result JamFault.Host }
    ensures whole { IfErr result IsWhole }
{
    let mut texts = TextList::new(alloc);
    for place in set {
        texts.push(act_text(alloc, graph, scene, &acts[*place])?)?;
    }
    Ok(texts)
}

/// Adds a text in parentheses on lines of their own.
fn push_in_parens(made: &mut String, text: &Text) -> Result<(), OutOfMemory>
    requires { HasNoZero (string_bytes made.old) }
    ensures value { OnOk result (string_bytes made.new ≡ string_bytes made.old ++ in_parens text.now) }
    ensures no_zero { OnOk result (HasNoZero (string_bytes made.new)) }
{
    made.push_str("(\n")?;
    made.push_str(text.as_str())?;
    made.push_str("\n)")?;
    Ok(())
}

/// Several texts, one after another.
fn several(alloc: Global, first: &Text, others: &[Text]) -> Result<Text, OutOfMemory>
    ensures { IfOk result (λ text. text ≡ in_parens first.now ++ and_so_on others.now) }
{
    let mut made = String::new(alloc);
    push_in_parens(&mut made, first)?;
    for other in others {
        made.push_str(" && ")?;
        push_in_parens(&mut made, other)?;
    }
    Ok(Text::from_string(made))
}

/// One text as it stands, and several one after another.
pub(crate) fn whole_text(alloc: Global, texts: &[Text]) -> Result<Text, OutOfMemory>
    ensures { IfOk result (λ text. text ≡ whole_text texts.now) }
{
    match texts {
        [] => Text::new(alloc, ""),
        [text] => text.copy(),
        [first, others @ ..] => several(alloc, first, others),
    }
}
